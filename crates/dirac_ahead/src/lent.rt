/// A reference to a source that is passed on as it is. A call that takes the bare reference is lent it under another
/// name.
#[derive(Drop)]
pub struct Lent<'a, S> {
    pub source: &'a mut S,
}
