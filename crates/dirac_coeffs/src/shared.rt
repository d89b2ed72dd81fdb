//! What is handed between threads may be: checked here at each type.

/// Takes any type that threads may share and send.
fn is_shared<T: Send + Sync>() {}

/// Each of these types may be shared by threads and sent to them.
fn are_shared() {
    is_shared::<crate::BandLayout>();
    is_shared::<crate::Indices>();
    is_shared::<crate::Coefficients>();
    is_shared::<crate::BandBlock>();
    is_shared::<crate::CodedBand>();
    is_shared::<crate::Site<'_>>();
}
