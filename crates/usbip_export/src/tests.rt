//! What no clause says: sessions end to end, with bytes that the standards give.

mod feeding;
mod serving;
mod session;
