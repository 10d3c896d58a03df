// The ops of the rows: document 01's table, 'Step image', numbers them 1 to 12. Code that reads or writes a row asks for its kind by
// name, and here alone stands which number that is.
ghost use Rattle.std.specs.Prelude.{◌≡◌};
ghost use Rattle.meaning.specs.Ops.{op_number, Decodes};

// The kind of a row, as its first byte says.
#[derive(Clone, Copy, PartialEq, Eq)]
pub enum RowKind {
    Send,
    Forward,
    Recv,
    Close,
    Range,
    Repeat,
    Ifok,
    Select,
    CaseSend,
    CaseForward,
    CaseRecv,
    Stop,
}

// An op that the table does not have.
#[derive(Clone, Copy, PartialEq, Eq)]
pub struct UnknownOp(pub u8);

impl From<RowKind> for u8 {
    ghost from_gives = { λ kind op. op ≡ op_number kind };

    fn from(kind: RowKind) -> u8 {
        match kind {
            RowKind::Send => 1,
            RowKind::Forward => 2,
            RowKind::Recv => 3,
            RowKind::Close => 4,
            RowKind::Range => 5,
            RowKind::Repeat => 6,
            RowKind::Ifok => 7,
            RowKind::Select => 8,
            RowKind::CaseSend => 9,
            RowKind::CaseForward => 10,
            RowKind::CaseRecv => 11,
            RowKind::Stop => 12,
        }
    }
}

impl TryFrom<u8> for RowKind {
    type Error = UnknownOp;

    ghost try_from_gives = { Decodes };

    fn try_from(op: u8) -> Result<RowKind, UnknownOp> {
        match op {
            1 => Ok(RowKind::Send),
            2 => Ok(RowKind::Forward),
            3 => Ok(RowKind::Recv),
            4 => Ok(RowKind::Close),
            5 => Ok(RowKind::Range),
            6 => Ok(RowKind::Repeat),
            7 => Ok(RowKind::Ifok),
            8 => Ok(RowKind::Select),
            9 => Ok(RowKind::CaseSend),
            10 => Ok(RowKind::CaseForward),
            11 => Ok(RowKind::CaseRecv),
            12 => Ok(RowKind::Stop),
            _ => Err(UnknownOp(op)),
        }
    }
}
