//! What is handed between threads may be: checked here at each type.

/// Takes any type that threads may share and send.
fn is_shared<T: Send + Sync>() {}

/// Each of these types may be shared by threads and sent to them.
fn are_shared() {
    is_shared::<crate::Plane>();
    is_shared::<crate::Wide>();
    is_shared::<crate::Narrow>();
    is_shared::<crate::BandTable>();
    is_shared::<crate::Picture>();
    is_shared::<crate::Fault>();
    is_shared::<crate::Refusal>();
    is_shared::<crate::Stop>();
    is_shared::<crate::NoMemory>();
    is_shared::<crate::BlockGrid>();
    is_shared::<crate::Vector>();
}
