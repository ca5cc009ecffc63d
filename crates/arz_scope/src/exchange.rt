// What an attempt's expressions read of its own request and reply.
ghost use Rattle.std.specs.Prelude.{◌≡◌, ◌++◌, IfOk, OnOk, IfSome, All, find, pos, string_bytes};
ghost use Rattle.std.specs.Option.{option_copied};
ghost use Rattle.arz_json.specs.declared.Json.{Json};
ghost use Rattle.arz_world.specs.Requests.{authority};
ghost use Rattle.arz_scope.specs.Shallow.{IsShallow, SendsShallow};
ghost use Rattle.arz_scope.specs.Scopes.{exchanged, is_header, is_parameter};
ghost use Rattle.arz_scope.specs.Prepared.{url_of};

use crate::bodies::body_of;
use crate::fields::{Field, field_value, fields_of};
use arz_expr::Base;
use arz_json::{Json, Location, Many, Text};
use arz_world::{Reply, Request, Sent, Server};
use std::alloc::{AllocError, Global};
use std::marker::Model;

/// What the expressions of an attempt read of its own request and reply (Arazzo 1.0.1, 4.7), made once
/// for a reply. Contracts see the request and the reply.
#[derive(Debug, Drop)]
pub struct Exchange<'a> {
    request: &'a Request,
    reply: &'a Reply,
    url: Json,
    method: Json,
    status: Json,
    fields: Many<Field>,
    body: Option<Json>,
}

impl<'a> Model for Exchange<'a> {
    ghost use Rattle.arz_world.specs.declared.Request.{Request};
    ghost use Rattle.arz_world.specs.declared.Reply.{Reply};
    ghost use Rattle.arz_scope.specs.Speaking.{exchange_code};

    ghost Value = { Request × Reply };

    ghost coded = { exchange_code };

    ghost use Rattle.arz_scope.specs.Prepared.{IsPrepared};

    ghost view = { λ e. (e.request.now, e.reply.now) };

    ghost invariant = { λ e. IsPrepared e.request.now e.reply.now e.url e.method e.status e.fields e.body };
}

impl<'a> Exchange<'a> {
    /// The exchange of a request that was sent and the reply that it got.
    pub fn new(
        alloc: Global,
        request: &'a Request,
        reply: &'a Reply,
    ) -> Result<Exchange<'a>, AllocError>
        requires { SendsShallow request.now }
        ensures { IfOk result (λ e. e ≡ (request.now, reply.now)) }
    {
        let url = url(alloc, request)?;
        let method = Json::Text(request.method.copy(alloc)?);
        let fields = fields_of(alloc, reply)?;
        let body = body_of(alloc, reply)?;
        Ok(Exchange {
            request,
            reply,
            url: Json::Text(url),
            method,
            status: status_tree(reply.status),
            fields,
            body,
        })
    }

    /// The value of a base that speaks of the exchange. It takes no memory.
    pub fn find(&self, base: &Base) -> Option<&Json>
        ensures value { option_copied result ≡ exchanged self.now.0 self.now.1 base.now }
        ensures shallow { IfSome result (λ value. IsShallow value.now) }
    {
        match base {
            Base::Url => Some(&self.url),
            Base::Method => Some(&self.method),
            Base::StatusCode => Some(&self.status),
            Base::RequestHeader(name) => Some(
                &header_sent(self.request.values.as_slice(), name.as_str())?.value,
            ),
            Base::RequestQuery(name) => Some(
                &parameter_sent(
                    self.request.values.as_slice(),
                    Location::Query,
                    name.as_str(),
                )?
                .value,
            ),
            Base::RequestPath(name) => Some(
                &parameter_sent(
                    self.request.values.as_slice(),
                    Location::Path,
                    name.as_str(),
                )?
                .value,
            ),
            Base::RequestBody => self.request.payload.as_ref(),
            Base::ResponseHeader(name) => field_value(self.fields.as_slice(), name.as_str()),
            Base::ResponseBody => self.body.as_ref(),
            _ => None,
        }
    }
}

// The first header parameter with this name, in any ASCII case.
fn header_sent<'a>(values: &'a [Sent], name: &str) -> Option<&'a Sent>
    ensures value { option_copied result ≡ find (is_header name.now) values.now }
    ensures shallow { All (λ s. IsShallow s.value) values.now → IfSome result (λ s. IsShallow s.now.value) }
{
    values.iter().find(|sent| is_header_named(sent, name))
}

fn is_header_named(sent: &Sent, name: &str) -> bool
    ensures { result ≡ is_header name.now sent.now }
{
    sent.place == Location::Header && sent.name.as_str().eq_ignore_ascii_case(name)
}

// The first parameter in this place with this name.
fn parameter_sent<'a>(values: &'a [Sent], place: Location, name: &str) -> Option<&'a Sent>
    ensures value { option_copied result ≡ find (is_parameter place name.now) values.now }
    ensures shallow { All (λ s. IsShallow s.value) values.now → IfSome result (λ s. IsShallow s.now.value) }
{
    values
        .iter()
        .find(|sent| is_parameter_named(sent, place, name))
}

fn is_parameter_named(sent: &Sent, place: Location, name: &str) -> bool
    ensures { result ≡ is_parameter place name.now sent.now }
{
    sent.place == place && sent.name.as_str() == name
}

// A status code as a tree.
fn status_tree(code: u16) -> Json
    ensures value { result ≡ Json.Int (pos code) }
    ensures shallow { IsShallow result }
{
    Json::Int(i128::from(code))
}

// `http://`, the value of the Host line, and the target.
fn url(alloc: Global, request: &Request) -> Result<Text, AllocError>
    ensures { IfOk result (λ text. text ≡ url_of request.now) }
{
    let mut text = String::from_str(alloc, "http://")?;
    push_authority(&mut text, &request.server)?;
    text.push_str(request.target.as_str())?;
    Ok(Text::from_std(text))
}

// `HOST`, or `HOST:PORT` where the port isn't 80.
fn push_authority(text: &mut String, server: &Server) -> Result<(), AllocError>
    ensures { OnOk result (string_bytes text.new ≡ string_bytes text.old ++ authority server.now) }
{
    text.push_str(server.host.as_str())?;
    if server.port == 80 {
        return Ok(());
    }
    let port = server.port;
    write!(text, ":{port}")
}
