// Requests (01, "Requests"): a frame of any bytes read as a request, or refused 1.
#![tactic(auto)]

pub mod decode;
pub mod form;
pub mod requests;
