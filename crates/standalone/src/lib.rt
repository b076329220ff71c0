// Owns the standalone map (document 01, "Numbers given back"): a byte address to its cell and back, under a CFG and a ROW word.
#![tactic(auto)]

ghost use Rattle.std.specs.Prelude.{◌≡◌, true};
ghost use Rattle.config.specs.Accepted.{Shaped};
ghost use Rattle.address.specs.Map.{address_of, holds_of};
ghost use Rattle.standalone.specs.Standalone.{located_of, addressed_of, to_cell_of, to_address_of};
ghost use Rattle.standalone.specs.Answers.{cell_in, address_in};

use address::Cell;
use config::Geometry;
use refusal::Refusal;

// Does the cell lie in the geometry?
#[tactic(auto, unfolding(address::specs::Map::holds_of))]
fn holds(g: Geometry, cell: Cell) -> bool
    requires { Shaped g }
    ensures { result ≡ holds_of g cell }
{
    (cell.bank.0 as u32) < address::span(g.banks)
        && (cell.row.0 as u32) < address::span(g.rows)
        && (cell.column.0 as u32) < address::span(g.columns)
}

// The address of a cell within the geometry.
#[tactic(auto, using(address::proofs::Laws::holds_true, address::proofs::Laws::page_below, address::proofs::Laws::word_below, address::proofs::Laws::page_small, address::proofs::Laws::word_small), unfolding(address::specs::Map::address_of, address::specs::Map::holds_of))]
fn address_of(g: Geometry, cell: Cell) -> u32
    requires shaped { Shaped g }
    requires cell_value { holds_of g cell ≡ true }
    ensures { result ≡ address_of g cell }
{
    let page = cell.row.0 as u32 * address::span(g.banks) + cell.bank.0 as u32;
    (page * address::span(g.columns) + cell.column.0 as u32) * 2
}

#[tactic(auto, unfolding(crate::specs::Standalone::located_of))]
fn located(g: Geometry, address: u32) -> Result<Cell, Refusal>
    requires { Shaped g }
    ensures { cell_in result ≡ located_of g address }
{
    address::check_address(g, address)?;
    Ok(address::cell_of(g, address))
}

#[tactic(auto, unfolding(crate::specs::Standalone::addressed_of))]
fn addressed(g: Geometry, cell: Cell) -> Result<u32, Refusal>
    requires { Shaped g }
    ensures { address_in result ≡ addressed_of g cell }
{
    if !holds(g, cell) {
        return Err(Refusal::OutsideGeometry);
    }
    Ok(address_of(g, cell))
}

// The standalone map, address to cell: the words are tested before the address.
#[tactic(auto, using(config::proofs::Laws::shaped), unfolding(crate::specs::Standalone::to_cell_of))]
pub fn to_cell(cfg: u32, row: u32, address: u32) -> Result<Cell, Refusal>
    ensures { cell_in result ≡ to_cell_of cfg row address }
{
    config::check_map(cfg, row)?;
    located(config::shape(cfg, row), address)
}

// The standalone map, cell to address: the words are tested before the cell.
#[tactic(auto, using(config::proofs::Laws::shaped), unfolding(crate::specs::Standalone::to_address_of))]
pub fn to_address(cfg: u32, row: u32, cell: Cell) -> Result<u32, Refusal>
    ensures { address_in result ≡ to_address_of cfg row cell }
{
    config::check_map(cfg, row)?;
    addressed(config::shape(cfg, row), cell)
}
