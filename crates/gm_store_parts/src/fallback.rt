//! The rule of the GOPROXY fallback, and the proxy list that names the folders.

pub(crate) mod proxy_list;
mod proxy_list_parser;
pub(crate) mod step;
