//! What is handed between threads may be: checked here.

/// Takes any type that threads may share and send.
fn is_shared<T: Send + Sync>() {}

/// Blocks and ranges may be shared by threads and sent to them.
fn are_shared() {
    is_shared::<crate::PictureBlocks>();
    is_shared::<crate::VectorRange>();
}
