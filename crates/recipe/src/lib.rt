// The recipe: what each parameter may be, and how many outlier cells a sheet may have.
#![tactic(auto)]

pub mod alter;
pub mod entry;
pub mod held;
pub mod table;
pub mod trial;

pub use alter::Alter;
pub use held::Limits;
pub use table::Recipe;
pub use trial::Trial;
