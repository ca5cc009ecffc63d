use arz_json::{Many, Text};

/// What an expression begins with (Arazzo 1.0.1, section 4.7): the value from which its tail goes on.
#[derive(Debug, Drop)]
pub enum Base {
    /// `$url`: the URL of the request.
    Url,
    /// `$method`: the method of the request.
    Method,
    /// `$statusCode`: the status code of the response.
    StatusCode,
    /// `$request.header.NAME`: a header field of the request.
    RequestHeader(Text),
    /// `$request.query.NAME`: a query parameter of the request.
    RequestQuery(Text),
    /// `$request.path.NAME`: a path parameter of the request.
    RequestPath(Text),
    /// `$request.body`: the body of the request.
    RequestBody,
    /// `$response.header.NAME`: a header field of the response.
    ResponseHeader(Text),
    /// `$response.body`: the body of the response.
    ResponseBody,
    /// `$inputs.NAME`: an input of this workflow.
    Input(Text),
    /// `$outputs.NAME`: an output of this workflow.
    Output(Text),
    /// `$steps.STEP.outputs.NAME`: an output of a step.
    StepOutput(Text, Text),
    /// `$workflows.WORKFLOW.inputs.NAME`: an input of a workflow.
    WorkflowInput(Text, Text),
    /// `$workflows.WORKFLOW.outputs.NAME`: an output of a workflow.
    WorkflowOutput(Text, Text),
    /// `$sourceDescriptions.NAME.url`: the URL of a source description.
    SourceUrl(Text),
    /// `$sourceDescriptions.NAME.name`: its name.
    SourceName(Text),
    /// `$sourceDescriptions.NAME.type`: its type.
    SourceKind(Text),
}

/// One step into a value.
#[derive(Debug, Drop)]
pub enum Tail {
    /// `.NAME`: the member of an object.
    Member(Text),
    /// `[INDEX]`: the item of a list, counted from 0. An index is below 10^18.
    Index(u64),
}

/// A runtime expression (Arazzo 1.0.1, section 4.7): a base, steps into its value, and at last a
/// JSON Pointer (RFC 6901) behind `#`.
#[derive(Debug, Drop)]
pub struct Expr {
    pub base: Base,
    pub tail: Many<Tail>,
    pub pointer: Option<Text>,
}
