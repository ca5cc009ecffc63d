//! Styles of parameters (OpenAPI 3.1.1, section 4.8.12; RFC 6570) and the body of a form (WHATWG URL, section 5):
//! JSON values as texts of requests.
//!
//! The name is `color`, the list `["blue","black"]`, the object `{"G":200,"B":150}`.
//!
//! | style | empty text | text | list | list, explode | object | object, explode |
//! |---|---|---|---|---|---|---|
//! | matrix | `;color` | `;color=blue` | `;color=blue,black` | `;color=blue;color=black` | `;color=B,150,G,200` | `;B=150;G=200` |
//! | label | `.` | `.blue` | `.blue,black` | `.blue.black` | `.B,150,G,200` | `.B=150.G=200` |
//! | simple | nothing | `blue` | `blue,black` | `blue,black` | `B,150,G,200` | `B=150,G=200` |
//! | form | `color=` | `color=blue` | `color=blue,black` | `color=blue&color=black` | `color=B,150,G,200` | `B=150&G=200` |
//! | spaceDelimited | refused | refused | `color=blue%20black` | as form | `color=B%20150%20G%20200` | as form |
//! | pipeDelimited | refused | refused | `color=blue%7Cblack` | as form | `color=B%7C150%7CG%7C200` | as form |
//! | deepObject | refused | refused | refused | refused | `color%5BB%5D=150&color%5BG%5D=200` | the same |
#![tactic(auto)]

mod escapes;
mod fault;
mod forms;
mod labels;
mod styles;
mod texts;
mod writing;

pub use fault::StyleFault;
pub use forms::form;
pub use styles::expand;
