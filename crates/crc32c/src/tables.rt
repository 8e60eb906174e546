// The tables as a type of its own: what it holds is filled. A caller may fill its own and lend it, as before there was a type.
ghost use Rattle.crc32c.specs.Tables.{Tables as AreTables};

// Sixteen tables, one behind the other.
#[derive(Clone, Copy)]
pub struct Tables {
    pub words: [u32; 4096],
    pub ghost filled: { AreTables words },
}
