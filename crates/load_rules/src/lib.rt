//! What an application's files mean for a request.
//!
//! Today the files are of one form: a controller with one action, whose body is one text. Of
//!
//! ```ruby
//! # app/controllers/hello_controller.rb
//! class HelloController
//!   def self.index(params)
//!     "hi"
//!   end
//! end
//! ```
//!
//! `first_reply` for the controller `hello` and the action `index` is 200 with the text `hi`, for the action `show` 404
//! with `no action show in HelloController`, and for another controller 404. A file without a tree replies 500 with its
//! first fault: without its last line, `SyntaxError: unexpected at byte 62 (app/controllers/hello_controller.rb)`. A
//! file
//! with another path or another tree refuses every request, and the refusal has its path.
//!
//! | Module | Does |
//! |---|---|
//! | `names` | the file and the class of a controller |
//! | `form` | the method of a tree of the one form |
//! | `reading` | a file as its tree or its first fault |
//! | `fault` | a first fault in words |
//! | `first` | the reply |
//! | `release` | drops trees by loops, however long their chains |
#![tactic(auto)]

mod fault;
mod first;
mod form;
pub mod names;
mod reading;
mod refusal;
mod release;

pub use first::first_reply;
pub use names::is_letters;
pub use refusal::FirstRefusal;
