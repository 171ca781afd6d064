// The fields of a header that levelling changes.
ghost use Rattle.std.specs.Prelude.{◌≡◌, ◌≢◌, ◌≤◌, codes};
ghost use Rattle.dada_model.specs.Change.{IsWord};
ghost use Rattle.level_plan.specs.Headers.{field_name, field_decimals};

/// A field of a header that levelling changes.
#[derive(Clone, Copy, PartialEq, Eq, Debug)]
pub enum Field {
    Tsamp,
    Nbit,
    ObsOffset,
    BytesPerSecond,
    FileSize,
    ObsSize,
    TransferSize,
}

/// All such fields, in the order in which they are changed.
pub(crate) const FIELDS: [Field; 7] = [
    Field::Tsamp,
    Field::Nbit,
    Field::ObsOffset,
    Field::BytesPerSecond,
    Field::FileSize,
    Field::ObsSize,
    Field::TransferSize,
];

impl Field {
    /// The keyword of the field.
    pub fn name(self) -> &'static str
        ensures name { result.now ≡ field_name self }
        ensures word { IsWord result.now }
        ensures other { result.now ≢ codes "HDR_SIZE" }
    {
        match self {
            Field::Tsamp => "TSAMP",
            Field::Nbit => "NBIT",
            Field::ObsOffset => "OBS_OFFSET",
            Field::BytesPerSecond => "BYTES_PER_SECOND",
            Field::FileSize => "FILE_SIZE",
            Field::ObsSize => "OBS_SIZE",
            Field::TransferSize => "TRANSFER_SIZE",
        }
    }

    /// How many decimals its value is written with.
    pub(crate) fn decimals(self) -> u32
        ensures value { result ≡ field_decimals self }
        ensures most { result ≤ 3 }
    {
        match self {
            Field::Tsamp => 3,
            _ => 0,
        }
    }
}
