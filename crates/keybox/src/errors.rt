// Why a key box gives no key.

#[derive(Clone, Copy, Debug, PartialEq, Eq)]
pub enum KeyError {
    // no further key is to be had
    NoKey,
    // the box doesn't take the half that came
    NotTaken,
}
