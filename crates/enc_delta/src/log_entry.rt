use enc_base::Token;

/// An entry of EncLog: a token and what is done to it. `operations` has the numbers of operations; a file may have
/// others.
#[derive(Clone, Copy, Debug, PartialEq, Eq)]
pub struct LogEntry {
    pub token: Token,
    pub operation: u32,
}
