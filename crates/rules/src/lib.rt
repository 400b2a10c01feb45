// The declared types of the book: what a desk keeps, how the rows of the lent tables read, the nine
// calls, and the answers. Their behaviour stands in specs/, one file for each part of document 01.
#![tactic(auto)]

pub mod answers;
pub mod book;
pub mod calls;
pub mod desk;
pub mod limits;
pub mod rows;
