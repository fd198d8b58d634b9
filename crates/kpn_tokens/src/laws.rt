//! Laws of layouts. The functions do nothing: their clauses are theorems.
ghost use Rattle.kpn_tokens.specs.Records.{ReadsBack};
ghost use Rattle.kpn_tokens.specs.Tables.{ReadsColumnsBack};

use crate::layouts::Layout;
use crate::tables::Table;

/// Written tokens that fit are read back unchanged.
pub fn reads_back(layout: Layout)
    ensures { ReadsBack layout }
{}

/// Written columns of tokens that fit, all of one length, are read back unchanged.
pub fn reads_columns_back(table: Table)
    ensures { ReadsColumnsBack table }
{}
