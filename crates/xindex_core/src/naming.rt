//! Which index it is, as a type.
ghost use Rattle.std.specs.Prelude.{Option};
ghost use Rattle.atomic_table.specs.Seated.{TableId};
ghost use Rattle.index_machine.specs.declared.opening.Opening.{Opening};

use std::marker::Brand;

/// One opened index. It has nothing at run time: whoever shares the index picks it, by `Brand`.
pub trait Name {
    ghost table: { TableId };

    ghost opening: { Option Opening };
}

impl Name for Brand {
    ghost use Rattle.std.specs.Prelude.{None};
    ghost use Rattle.xindex_core.specs.NoName.{no_table};

    ghost table = { no_table };

    ghost opening = { None };
}
