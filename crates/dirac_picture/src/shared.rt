//! What is handed between threads may be: checked here at each type.

/// Takes any type that threads may share and send.
fn is_shared<T: Send + Sync>() {}

/// Each of these types may be shared by threads and sent to them.
fn are_shared() {
    is_shared::<crate::PlaneBands>();
    is_shared::<crate::CodedResidual>();
    is_shared::<crate::CodedMotion>();
    is_shared::<crate::CodedPicture>();
    is_shared::<crate::Texts>();
    is_shared::<crate::Chain>();
    is_shared::<crate::FoundPlanes<'_>>();
}
