// What trees are asked to be, kind by kind.
ghost use Rattle.std.specs.Prelude.{◌≡◌};
ghost use Rattle.arz_rules.specs.Kinds.{form_of};
ghost use Rattle.arz_rules.specs.Shapes.{seen_form};

use crate::forms::{Choice, Field, Form, Need, Others, Size};

/// What a tree may be asked to be.
#[derive(Clone, Copy, Debug, PartialEq, Eq)]
pub enum Kind {
    // Kinds that several documents have.
    /// Any value.
    Anything,
    /// No value: a member of this kind must not be there.
    Nothing,
    /// A text.
    Text,
    /// `true` or `false`.
    Flag,
    /// An integer that is not negative.
    Count,
    /// The same, or a number that is kept without its value.
    AnyCount,
    /// A value in which each number is an integer.
    Solid,
    /// An object with any members.
    AnyObject,
    /// A list of texts.
    Texts,
    /// An object of texts.
    TextMap,
    /// `info` (Arazzo 1.0.1, section 4.6.2; Overlay 1.0.0, section 4.4.2).
    Info,
    // The setup file.
    /// The setup.
    Setup,
    /// Its overlays.
    SetupOverlays,
    /// Where an overlay stands, and for which source it is.
    SetupOverlay,
    /// What is done at a wait.
    Delay,
    // The replies file.
    /// Given replies.
    Replies,
    /// A reply. Beside `body` a `text` must not be there.
    Reply,
    /// A reply with a `body`.
    BodyReply,
    /// A reply without one.
    TextReply,
    /// A status of a final response (RFC 9110, section 15).
    Status,
    /// Header fields by names that are tokens (RFC 9110, section 5.1).
    Headers,
    /// A text without control characters but the tab.
    FieldValue,
    // The description (Arazzo 1.0.1, section 4.6).
    /// A description (Arazzo 1.0.1, section 4.6.1).
    Description,
    /// Its sources.
    Sources,
    /// A source (section 4.6.3).
    Source,
    /// The type of a source.
    SourceType,
    /// Its workflows.
    Workflows,
    /// A workflow (section 4.6.4).
    Workflow,
    /// What a workflow takes: a schema, or the use of one.
    Inputs,
    /// A schema of inputs.
    InputSchema,
    /// The use of a schema among the components.
    InputsUse,
    /// The pointer to it.
    InputsReference,
    /// The steps of a workflow.
    Steps,
    /// A step (section 4.6.5): one that runs a workflow, or one that calls an operation.
    Step,
    /// A step that runs a workflow.
    FlowStep,
    /// A step that calls an operation.
    CallStep,
    /// The parameters of a step that runs a workflow.
    FlowParameters,
    /// One of them, or a reusable object in its place.
    FlowParameterUse,
    /// A parameter that may lack its `in` (section 4.6.6).
    FlowParameter,
    /// Other parameters.
    CallParameters,
    /// One of them, or a reusable object in its place.
    CallParameterUse,
    /// A parameter with its `in`.
    CallParameter,
    /// Where a parameter stands.
    In,
    /// A reusable object in place of a parameter (section 4.6.10).
    ParameterReuse,
    /// What it names.
    ParameterReference,
    /// A request body (section 4.6.13).
    RequestBody,
    /// The replacements in its payload.
    Replacements,
    /// A replacement (section 4.6.14).
    Replacement,
    /// The text of a JSON Pointer (RFC 6901).
    Pointer,
    /// What is done after success.
    SuccessActions,
    /// An action, or a reusable object in its place.
    SuccessActionUse,
    /// An action after success (section 4.6.7).
    SuccessAction,
    /// Its type.
    SuccessType,
    /// A reusable object in place of such an action.
    SuccessReuse,
    /// What it names.
    SuccessReference,
    /// What is done after failure.
    FailureActions,
    /// An action, or a reusable object in its place.
    FailureActionUse,
    /// An action after failure (section 4.6.8).
    FailureAction,
    /// Its type.
    FailureType,
    /// A reusable object in place of such an action.
    FailureReuse,
    /// What it names.
    FailureReference,
    /// Criteria.
    Criteria,
    /// A criterion (section 4.6.11): where its type is there and is not `simple`, with a context.
    Criterion,
    /// The type `simple`.
    SimpleType,
    /// A criterion that may lack its context.
    PlainCriterion,
    /// A criterion with a context.
    ContextCriterion,
    /// The type of a criterion, or an object (section 4.6.12).
    CriterionType,
    /// The components of a description (section 4.6.9).
    Components,
    /// Schemas of inputs by name.
    InputSchemas,
    /// Parameters by name. Each may lack its `in`.
    ParameterMap,
    /// Actions after success by name.
    SuccessActionMap,
    /// Actions after failure by name.
    FailureActionMap,
    // OpenAPI documents (OpenAPI 3.1.0, section 4.8).
    /// An OpenAPI document (OpenAPI 3.1.0, section 4.8.1).
    OpenApi,
    /// Its paths (section 4.8.8).
    Paths,
    /// A path item (section 4.8.9).
    PathItem,
    /// An operation (section 4.8.10), but for its parameters and body.
    Operation,
    /// Servers.
    Servers,
    /// A server (section 4.8.5).
    Server,
    /// The variables of a server.
    Variables,
    /// A variable (section 4.8.6).
    Variable,
    /// The parameters of an operation or a path item.
    OperationParameters,
    /// One of them, or a reference in its place.
    OperationParameterUse,
    /// A reference (section 4.8.23).
    LocalUse,
    /// A parameter of an operation (section 4.8.12).
    OperationParameter,
    /// The place of a path parameter.
    InPath,
    /// The place of a query parameter.
    InQuery,
    /// The place of a header parameter.
    InHeader,
    /// The place of a cookie parameter.
    InCookie,
    /// A path parameter.
    PathParameter,
    /// A query parameter.
    QueryParameter,
    /// A header parameter.
    HeaderParameter,
    /// A cookie parameter.
    CookieParameter,
    /// A parameter of no such place. No style fits it.
    OtherParameter,
    /// The styles of a path parameter (section 4.8.12.3).
    PathStyle,
    /// The styles of a query parameter.
    QueryStyle,
    /// The styles of a header parameter.
    HeaderStyle,
    /// The styles of a cookie parameter.
    CookieStyle,
    /// The body of an operation, or a reference in its place.
    OperationBodyUse,
    /// The body of an operation (section 4.8.13).
    OperationBody,
    // Overlays (Overlay 1.0.0, section 4.4).
    /// An overlay (Overlay 1.0.0, section 4.4.1).
    Overlay,
    /// Its actions.
    OverlayActions,
    /// An action (section 4.4.3).
    OverlayAction,
}

// Members that no row names may be anything.
const OPEN: Others = Others::Are(Kind::Anything);

// Members that no row names must not be there.
const CLOSED: Others = Others::Are(Kind::Nothing);

const INFO: [Field; 2] = [
    Field("title", Need::Must, Kind::Text),
    Field("version", Need::Must, Kind::Text),
];

const SETUP: [Field; 9] = [
    Field("arazzo", Need::Must, Kind::Text),
    Field("workflow", Need::May, Kind::Text),
    Field("inputs", Need::May, Kind::AnyObject),
    Field("sources", Need::May, Kind::TextMap),
    Field("overlays", Need::May, Kind::SetupOverlays),
    Field("servers", Need::May, Kind::TextMap),
    Field("maxAttempts", Need::May, Kind::Count),
    Field("delay", Need::May, Kind::Delay),
    Field("journalLimit", Need::May, Kind::Count),
];

const SETUP_OVERLAY: [Field; 2] = [
    Field("path", Need::Must, Kind::Text),
    Field("source", Need::May, Kind::Text),
];

const REPLY: [Choice; 1] = [Choice("body", Kind::Anything, Kind::BodyReply)];

const BODY_REPLY: [Field; 3] = [
    Field("status", Need::Must, Kind::Status),
    Field("headers", Need::May, Kind::Headers),
    Field("body", Need::May, Kind::Anything),
];

const TEXT_REPLY: [Field; 3] = [
    Field("status", Need::Must, Kind::Status),
    Field("headers", Need::May, Kind::Headers),
    Field("text", Need::May, Kind::Text),
];

const DESCRIPTION: [Field; 5] = [
    Field("arazzo", Need::Must, Kind::Text),
    Field("info", Need::Must, Kind::Info),
    Field("sourceDescriptions", Need::Must, Kind::Sources),
    Field("workflows", Need::Must, Kind::Workflows),
    Field("components", Need::May, Kind::Components),
];

const SOURCE: [Field; 3] = [
    Field("name", Need::Must, Kind::Text),
    Field("url", Need::Must, Kind::Text),
    Field("type", Need::May, Kind::SourceType),
];

const WORKFLOW: [Field; 8] = [
    Field("workflowId", Need::Must, Kind::Text),
    Field("steps", Need::Must, Kind::Steps),
    Field("inputs", Need::May, Kind::Inputs),
    Field("dependsOn", Need::May, Kind::Texts),
    Field("parameters", Need::May, Kind::CallParameters),
    Field("successActions", Need::May, Kind::SuccessActions),
    Field("failureActions", Need::May, Kind::FailureActions),
    Field("outputs", Need::May, Kind::TextMap),
];

const INPUTS: [Choice; 1] = [Choice("$ref", Kind::Anything, Kind::InputsUse)];

const INPUT_SCHEMA: [Field; 1] = [Field("required", Need::May, Kind::Texts)];

const INPUTS_USE: [Field; 1] = [Field("$ref", Need::Must, Kind::InputsReference)];

const STEP: [Choice; 1] = [Choice("workflowId", Kind::Anything, Kind::FlowStep)];

const FLOW_STEP: [Field; 10] = [
    Field("stepId", Need::Must, Kind::Text),
    Field("operationId", Need::May, Kind::Text),
    Field("operationPath", Need::May, Kind::Text),
    Field("workflowId", Need::May, Kind::Text),
    Field("parameters", Need::May, Kind::FlowParameters),
    Field("successCriteria", Need::May, Kind::Criteria),
    Field("onSuccess", Need::May, Kind::SuccessActions),
    Field("onFailure", Need::May, Kind::FailureActions),
    Field("requestBody", Need::May, Kind::RequestBody),
    Field("outputs", Need::May, Kind::TextMap),
];

const CALL_STEP: [Field; 10] = [
    Field("stepId", Need::Must, Kind::Text),
    Field("operationId", Need::May, Kind::Text),
    Field("operationPath", Need::May, Kind::Text),
    Field("workflowId", Need::May, Kind::Text),
    Field("parameters", Need::May, Kind::CallParameters),
    Field("successCriteria", Need::May, Kind::Criteria),
    Field("onSuccess", Need::May, Kind::SuccessActions),
    Field("onFailure", Need::May, Kind::FailureActions),
    Field("requestBody", Need::May, Kind::RequestBody),
    Field("outputs", Need::May, Kind::TextMap),
];

const FLOW_PARAMETER_USE: [Choice; 1] = [Choice("reference", Kind::Anything, Kind::ParameterReuse)];

const FLOW_PARAMETER: [Field; 3] = [
    Field("name", Need::Must, Kind::Text),
    Field("value", Need::Must, Kind::Anything),
    Field("in", Need::May, Kind::In),
];

const CALL_PARAMETER_USE: [Choice; 1] = [Choice("reference", Kind::Anything, Kind::ParameterReuse)];

const CALL_PARAMETER: [Field; 3] = [
    Field("name", Need::Must, Kind::Text),
    Field("value", Need::Must, Kind::Anything),
    Field("in", Need::Must, Kind::In),
];

const PARAMETER_REUSE: [Field; 2] = [
    Field("reference", Need::Must, Kind::ParameterReference),
    Field("value", Need::May, Kind::Anything),
];

const REQUEST_BODY: [Field; 3] = [
    Field("contentType", Need::May, Kind::Text),
    Field("payload", Need::May, Kind::Anything),
    Field("replacements", Need::May, Kind::Replacements),
];

const REPLACEMENT: [Field; 2] = [
    Field("target", Need::Must, Kind::Pointer),
    Field("value", Need::Must, Kind::Anything),
];

const SUCCESS_ACTION_USE: [Choice; 1] = [Choice("reference", Kind::Anything, Kind::SuccessReuse)];

const SUCCESS_ACTION: [Field; 7] = [
    Field("name", Need::Must, Kind::Text),
    Field("type", Need::Must, Kind::SuccessType),
    Field("stepId", Need::May, Kind::Text),
    Field("workflowId", Need::May, Kind::Text),
    Field("retryAfter", Need::May, Kind::AnyCount),
    Field("retryLimit", Need::May, Kind::AnyCount),
    Field("criteria", Need::May, Kind::Criteria),
];

const SUCCESS_REUSE: [Field; 1] = [Field("reference", Need::Must, Kind::SuccessReference)];

const FAILURE_ACTION_USE: [Choice; 1] = [Choice("reference", Kind::Anything, Kind::FailureReuse)];

const FAILURE_ACTION: [Field; 7] = [
    Field("name", Need::Must, Kind::Text),
    Field("type", Need::Must, Kind::FailureType),
    Field("stepId", Need::May, Kind::Text),
    Field("workflowId", Need::May, Kind::Text),
    Field("retryAfter", Need::May, Kind::AnyCount),
    Field("retryLimit", Need::May, Kind::AnyCount),
    Field("criteria", Need::May, Kind::Criteria),
];

const FAILURE_REUSE: [Field; 1] = [Field("reference", Need::Must, Kind::FailureReference)];

const CRITERION: [Choice; 2] = [
    Choice("type", Kind::SimpleType, Kind::PlainCriterion),
    Choice("type", Kind::Anything, Kind::ContextCriterion),
];

const PLAIN_CRITERION: [Field; 3] = [
    Field("condition", Need::Must, Kind::Text),
    Field("context", Need::May, Kind::Text),
    Field("type", Need::May, Kind::CriterionType),
];

const CONTEXT_CRITERION: [Field; 3] = [
    Field("condition", Need::Must, Kind::Text),
    Field("context", Need::Must, Kind::Text),
    Field("type", Need::May, Kind::CriterionType),
];

const COMPONENTS: [Field; 4] = [
    Field("inputs", Need::May, Kind::InputSchemas),
    Field("parameters", Need::May, Kind::ParameterMap),
    Field("successActions", Need::May, Kind::SuccessActionMap),
    Field("failureActions", Need::May, Kind::FailureActionMap),
];

const OPEN_API: [Field; 3] = [
    Field("openapi", Need::Must, Kind::Text),
    Field("paths", Need::May, Kind::Paths),
    Field("servers", Need::May, Kind::Servers),
];

const PATH_ITEM: [Field; 9] = [
    Field("get", Need::May, Kind::Operation),
    Field("put", Need::May, Kind::Operation),
    Field("post", Need::May, Kind::Operation),
    Field("delete", Need::May, Kind::Operation),
    Field("options", Need::May, Kind::Operation),
    Field("head", Need::May, Kind::Operation),
    Field("patch", Need::May, Kind::Operation),
    Field("trace", Need::May, Kind::Operation),
    Field("servers", Need::May, Kind::Servers),
];

const OPERATION: [Field; 2] = [
    Field("operationId", Need::May, Kind::Text),
    Field("servers", Need::May, Kind::Servers),
];

const SERVER: [Field; 2] = [
    Field("url", Need::Must, Kind::Text),
    Field("variables", Need::May, Kind::Variables),
];

const VARIABLE: [Field; 1] = [Field("default", Need::Must, Kind::Text)];

const OPERATION_PARAMETER_USE: [Choice; 5] = [
    Choice("$ref", Kind::Anything, Kind::LocalUse),
    Choice("in", Kind::InPath, Kind::PathParameter),
    Choice("in", Kind::InQuery, Kind::QueryParameter),
    Choice("in", Kind::InHeader, Kind::HeaderParameter),
    Choice("in", Kind::InCookie, Kind::CookieParameter),
];

const LOCAL_USE: [Field; 1] = [Field("$ref", Need::Must, Kind::Text)];

const OPERATION_PARAMETER: [Choice; 4] = [
    Choice("in", Kind::InPath, Kind::PathParameter),
    Choice("in", Kind::InQuery, Kind::QueryParameter),
    Choice("in", Kind::InHeader, Kind::HeaderParameter),
    Choice("in", Kind::InCookie, Kind::CookieParameter),
];

const PATH_PARAMETER: [Field; 4] = [
    Field("name", Need::Must, Kind::Text),
    Field("in", Need::Must, Kind::Text),
    Field("explode", Need::May, Kind::Flag),
    Field("style", Need::May, Kind::PathStyle),
];

const QUERY_PARAMETER: [Field; 4] = [
    Field("name", Need::Must, Kind::Text),
    Field("in", Need::Must, Kind::Text),
    Field("explode", Need::May, Kind::Flag),
    Field("style", Need::May, Kind::QueryStyle),
];

const HEADER_PARAMETER: [Field; 4] = [
    Field("name", Need::Must, Kind::Text),
    Field("in", Need::Must, Kind::Text),
    Field("explode", Need::May, Kind::Flag),
    Field("style", Need::May, Kind::HeaderStyle),
];

const COOKIE_PARAMETER: [Field; 4] = [
    Field("name", Need::Must, Kind::Text),
    Field("in", Need::Must, Kind::Text),
    Field("explode", Need::May, Kind::Flag),
    Field("style", Need::May, Kind::CookieStyle),
];

const OTHER_PARAMETER: [Field; 4] = [
    Field("name", Need::Must, Kind::Text),
    Field("in", Need::Must, Kind::Text),
    Field("explode", Need::May, Kind::Flag),
    Field("style", Need::May, Kind::Nothing),
];

const OPERATION_BODY_USE: [Choice; 1] = [Choice("$ref", Kind::Anything, Kind::LocalUse)];

const OPERATION_BODY: [Field; 1] = [Field("content", Need::Must, Kind::AnyObject)];

const OVERLAY: [Field; 3] = [
    Field("overlay", Need::Must, Kind::Text),
    Field("info", Need::Must, Kind::Info),
    Field("actions", Need::Must, Kind::OverlayActions),
];

const OVERLAY_ACTION: [Field; 3] = [
    Field("target", Need::Must, Kind::Text),
    Field("update", Need::May, Kind::Anything),
    Field("remove", Need::May, Kind::Flag),
];

/// How a kind is made up.
pub fn form_at(kind: Kind) -> Form
    ensures { seen_form result ≡ form_of kind }
{
    match kind {
        Kind::Anything => Form::Anything,
        Kind::Nothing => Form::Nothing,
        Kind::Text => Form::Text,
        Kind::Flag => Form::Flag,
        Kind::Count => Form::Count,
        Kind::AnyCount => Form::AnyCount,
        Kind::Solid => Form::Solid,
        Kind::AnyObject => Form::Object(&[], Others::Are(Kind::Anything)),
        Kind::Texts => Form::List(Size::Any, Kind::Text),
        Kind::TextMap => Form::Object(&[], Others::Are(Kind::Text)),
        Kind::Info => Form::Object(&INFO, OPEN),
        Kind::Setup => Form::Object(&SETUP, CLOSED),
        Kind::SetupOverlays => Form::List(Size::Any, Kind::SetupOverlay),
        Kind::SetupOverlay => Form::Object(&SETUP_OVERLAY, CLOSED),
        Kind::Delay => Form::Words(&["stop", "skip"]),
        Kind::Replies => Form::List(Size::Any, Kind::Reply),
        Kind::Reply => Form::Chosen(&REPLY, Kind::TextReply),
        Kind::BodyReply => Form::Object(&BODY_REPLY, CLOSED),
        Kind::TextReply => Form::Object(&TEXT_REPLY, CLOSED),
        Kind::Status => Form::Between(200, 599),
        Kind::Headers => Form::Object(&[], Others::Tokens(Kind::FieldValue)),
        Kind::FieldValue => Form::FieldValue,
        Kind::Description => Form::Object(&DESCRIPTION, OPEN),
        Kind::Sources => Form::List(Size::NotEmpty, Kind::Source),
        Kind::Source => Form::Object(&SOURCE, OPEN),
        Kind::SourceType => Form::Words(&["openapi", "arazzo"]),
        Kind::Workflows => Form::List(Size::NotEmpty, Kind::Workflow),
        Kind::Workflow => Form::Object(&WORKFLOW, OPEN),
        Kind::Inputs => Form::Chosen(&INPUTS, Kind::InputSchema),
        Kind::InputSchema => Form::Object(&INPUT_SCHEMA, OPEN),
        Kind::InputsUse => Form::Object(&INPUTS_USE, OPEN),
        Kind::InputsReference => Form::Prefixed("#/components/inputs/"),
        Kind::Steps => Form::List(Size::NotEmpty, Kind::Step),
        Kind::Step => Form::Chosen(&STEP, Kind::CallStep),
        Kind::FlowStep => Form::Object(&FLOW_STEP, OPEN),
        Kind::CallStep => Form::Object(&CALL_STEP, OPEN),
        Kind::FlowParameters => Form::List(Size::Any, Kind::FlowParameterUse),
        Kind::FlowParameterUse => Form::Chosen(&FLOW_PARAMETER_USE, Kind::FlowParameter),
        Kind::FlowParameter => Form::Object(&FLOW_PARAMETER, OPEN),
        Kind::CallParameters => Form::List(Size::Any, Kind::CallParameterUse),
        Kind::CallParameterUse => Form::Chosen(&CALL_PARAMETER_USE, Kind::CallParameter),
        Kind::CallParameter => Form::Object(&CALL_PARAMETER, OPEN),
        Kind::In => Form::Words(&["path", "query", "header", "cookie"]),
        Kind::ParameterReuse => Form::Object(&PARAMETER_REUSE, OPEN),
        Kind::ParameterReference => Form::Prefixed("$components.parameters."),
        Kind::RequestBody => Form::Object(&REQUEST_BODY, OPEN),
        Kind::Replacements => Form::List(Size::Any, Kind::Replacement),
        Kind::Replacement => Form::Object(&REPLACEMENT, OPEN),
        Kind::Pointer => Form::Pointer,
        Kind::SuccessActions => Form::List(Size::Any, Kind::SuccessActionUse),
        Kind::SuccessActionUse => Form::Chosen(&SUCCESS_ACTION_USE, Kind::SuccessAction),
        Kind::SuccessAction => Form::Object(&SUCCESS_ACTION, OPEN),
        Kind::SuccessType => Form::Words(&["end", "goto"]),
        Kind::SuccessReuse => Form::Object(&SUCCESS_REUSE, OPEN),
        Kind::SuccessReference => Form::Prefixed("$components.successActions."),
        Kind::FailureActions => Form::List(Size::Any, Kind::FailureActionUse),
        Kind::FailureActionUse => Form::Chosen(&FAILURE_ACTION_USE, Kind::FailureAction),
        Kind::FailureAction => Form::Object(&FAILURE_ACTION, OPEN),
        Kind::FailureType => Form::Words(&["end", "goto", "retry"]),
        Kind::FailureReuse => Form::Object(&FAILURE_REUSE, OPEN),
        Kind::FailureReference => Form::Prefixed("$components.failureActions."),
        Kind::Criteria => Form::List(Size::Any, Kind::Criterion),
        Kind::Criterion => Form::Chosen(&CRITERION, Kind::PlainCriterion),
        Kind::SimpleType => Form::Words(&["simple"]),
        Kind::PlainCriterion => Form::Object(&PLAIN_CRITERION, OPEN),
        Kind::ContextCriterion => Form::Object(&CONTEXT_CRITERION, OPEN),
        Kind::CriterionType => Form::WordsOrObject(&["simple", "regex", "jsonpath", "xpath"]),
        Kind::Components => Form::Object(&COMPONENTS, OPEN),
        Kind::InputSchemas => Form::Object(&[], Others::Are(Kind::InputSchema)),
        Kind::ParameterMap => Form::Object(&[], Others::Are(Kind::FlowParameter)),
        Kind::SuccessActionMap => Form::Object(&[], Others::Are(Kind::SuccessAction)),
        Kind::FailureActionMap => Form::Object(&[], Others::Are(Kind::FailureAction)),
        Kind::OpenApi => Form::Object(&OPEN_API, OPEN),
        Kind::Paths => Form::Object(&[], Others::Paths(Kind::PathItem)),
        Kind::PathItem => Form::Object(&PATH_ITEM, OPEN),
        Kind::Operation => Form::Object(&OPERATION, OPEN),
        Kind::Servers => Form::List(Size::Any, Kind::Server),
        Kind::Server => Form::Object(&SERVER, OPEN),
        Kind::Variables => Form::Object(&[], Others::Are(Kind::Variable)),
        Kind::Variable => Form::Object(&VARIABLE, OPEN),
        Kind::OperationParameters => Form::List(Size::Any, Kind::OperationParameterUse),
        Kind::OperationParameterUse => Form::Chosen(&OPERATION_PARAMETER_USE, Kind::OtherParameter),
        Kind::LocalUse => Form::Object(&LOCAL_USE, OPEN),
        Kind::OperationParameter => Form::Chosen(&OPERATION_PARAMETER, Kind::OtherParameter),
        Kind::InPath => Form::Words(&["path"]),
        Kind::InQuery => Form::Words(&["query"]),
        Kind::InHeader => Form::Words(&["header"]),
        Kind::InCookie => Form::Words(&["cookie"]),
        Kind::PathParameter => Form::Object(&PATH_PARAMETER, OPEN),
        Kind::QueryParameter => Form::Object(&QUERY_PARAMETER, OPEN),
        Kind::HeaderParameter => Form::Object(&HEADER_PARAMETER, OPEN),
        Kind::CookieParameter => Form::Object(&COOKIE_PARAMETER, OPEN),
        Kind::OtherParameter => Form::Object(&OTHER_PARAMETER, OPEN),
        Kind::PathStyle => Form::Words(&["matrix", "label", "simple"]),
        Kind::QueryStyle => Form::Words(&["form", "spaceDelimited", "pipeDelimited", "deepObject"]),
        Kind::HeaderStyle => Form::Words(&["simple"]),
        Kind::CookieStyle => Form::Words(&["form"]),
        Kind::OperationBodyUse => Form::Chosen(&OPERATION_BODY_USE, Kind::OperationBody),
        Kind::OperationBody => Form::Object(&OPERATION_BODY, OPEN),
        Kind::Overlay => Form::Object(&OVERLAY, OPEN),
        Kind::OverlayActions => Form::List(Size::NotEmpty, Kind::OverlayAction),
        Kind::OverlayAction => Form::Object(&OVERLAY_ACTION, OPEN),
    }
}
