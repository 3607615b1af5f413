// Table files: a view over the bytes of one, which is a server.
#![tactic(auto)]

mod table_file;

pub use table_file::TableFile;
