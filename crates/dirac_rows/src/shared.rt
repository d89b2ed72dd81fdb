//! What is handed between threads may be: checked here at each type.

use crate::claims::{Claimed, RowClaims, RowSeat};

/// Takes any type that threads may share and send.
fn is_shared<T: Send + Sync>() {}

/// Takes any type that may be sent to another thread.
fn is_sent<T: Send>() {}

/// Claims are shared, and a seat is sent to the thread that claims with it.
fn are_shared() {
    is_shared::<RowClaims>();
    is_shared::<Claimed>();
    is_sent::<RowSeat>();
}
