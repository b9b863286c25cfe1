//! Workers over loopback, in one process: the server and its clients are threads.
mod client;
mod connections;
mod held;
mod holding;
mod moments;
mod running;
mod silent;
mod texts;
