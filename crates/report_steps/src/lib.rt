//! The steps of the work on a file that all jobs share, and the refusals of all jobs.
//!
//! Each step is a function whose contract names its own step alone: `read_file`, `parent_of`,
//! `stars_of`, `divide`, `reps_of`, `induced_of`, in this order. Conventions: an operation is
//! x' = R x + t with t in twelfths of a cell edge; elements are numbered from 0, lines from 1.
#![tactic(auto)]

mod context;
mod division;
mod edges;
mod fraction;
mod generators;
mod induction;
mod laws;
mod list;
mod operation_line;
mod parent;
mod place;
mod reading;
mod refusal;
mod rep;
mod star;
mod step;

pub use context::{AcceptedRep, Celled, Divided, InducedFile, Parented, Represented, Starred};
pub use division::divide;
pub use edges::edges_text;
pub use fraction::fraction_text;
pub use induction::induced_of;
pub use laws::{law_of_irreps, law_of_steps};
pub use list::add;
pub use operation_line::op_line;
pub use parent::parent_of;
pub use place::place_text;
pub use reading::read_file;
pub use refusal::{Refusal, refusal_line};
pub use rep::reps_of;
pub use star::stars_of;
pub use step::Step;
