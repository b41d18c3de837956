//! OIL: grammar. A NAME of the text.

ghost use Rattle.std.specs.Prelude.{◌<◌, ◌≤◌, length};
ghost use Rattle.osek_base.specs.declared.limits.TheConstants.{MAX_NAME};

/// A NAME of the text: 1 to 32 letters, digits and `_`.
#[derive(Clone, Copy, PartialEq, Eq)]
pub struct Ident<'a> {
    pub text: &'a str,
    ghost some: { 0 < length text.now },
    ghost short: { length text.now ≤ MAX_NAME },
}
