// The words and signs that a module's text is made of.

/// A reserved word that a rule of the profile uses.
#[derive(Clone, Copy, Debug)]
pub enum Key {
    Module,
    EndModule,
    Input,
    Output,
    Wire,
    Reg,
    Assign,
    Always,
    Posedge,
    If,
    Else,
    Begin,
    End,
}

/// A sign; `BothAmp` is `&&`, `BothBar` is `||`, `XnorLeft` is `^~` and `XnorRight` is `~^`.
#[derive(Clone, Copy, Debug)]
pub enum Sign {
    Open,
    Close,
    OpenBracket,
    CloseBracket,
    OpenBrace,
    CloseBrace,
    Comma,
    Semicolon,
    Colon,
    Question,
    At,
    Equals,
    Plus,
    Minus,
    Star,
    Amp,
    Bar,
    Caret,
    Tilde,
    Bang,
    Less,
    Greater,
    AtMost,
    AtLeast,
    Same,
    Differs,
    BothAmp,
    BothBar,
    ShiftLeft,
    ShiftRight,
    XnorLeft,
    XnorRight,
}

/// A token. A name borrows the text.
#[derive(Clone, Copy, Debug)]
pub enum Token<'a> {
    Name(&'a str),
    Word(Key),
    /// A reserved word that no rule uses.
    Unused,
    /// The text `0` alone.
    Zero,
    /// Any other decimal number; one that does not fit is kept as the greatest `u32`.
    Decimal(u32),
    /// A sized constant; where its value does not fit its size, or the size is above 64, `fits` is false and both
    /// numbers are 0.
    Sized { value: u64, size: u8, fits: bool },
    Mark(Sign),
}
