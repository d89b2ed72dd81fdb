//! What is handed between threads may be: checked here at each type.

/// Takes any type that threads may share and send.
fn is_shared<T: Send + Sync>() {}

/// Each of these types may be shared by threads and sent to them.
fn are_shared() {
    is_shared::<crate::Luma<'_>>();
    is_shared::<crate::Lumas<'_>>();
    is_shared::<crate::Reference<'_>>();
    is_shared::<crate::References<'_>>();
}
