// Words, numbers and lines, each written behind the other in a lent buffer.
#![tactic(auto)]

mod page;

pub use page::Page;
