//! What no clause says: sessions end to end, with bytes that the standards give.

mod bulk;
mod control;
mod ends;
mod session;
