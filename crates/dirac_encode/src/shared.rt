//! What is handed between threads may be: checked here at each type.

/// Takes any type that threads may share and send.
fn is_shared<T: Send + Sync>() {}

/// Each of these types may be shared by threads and sent to them.
fn are_shared() {
    is_shared::<crate::Coded>();
    is_shared::<crate::ahead::CodedAhead>();
}
