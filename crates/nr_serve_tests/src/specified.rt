//! Each public item of the queue and of the server in the form that its callers rely on: where a name, a
//! field, an argument or an answer changes, these files no longer compile.
mod serve;
mod trigger;
