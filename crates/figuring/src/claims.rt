// The claims of the figuring layer, each a function whose contract is the statement of specs/ for all its arguments.
// A theorem that goes missing, or is proved of less, leaves its function here unproved, so the gate holds it.
ghost use Rattle.std.specs.Prelude.{true, ◌≡◌};
ghost use Rattle.figuring.specs.Marked.{FiguringMarked};
ghost use Rattle.figuring.specs.Units.{engine_unit};
ghost use Rattle.figuring.specs.Netting.{RoundsToNearest};
ghost use Rattle.figuring.specs.Editions.{CardEditions};
ghost use Rattle.figuring.specs.Tables.{CardTables};
ghost use Rattle.figuring.specs.FiveDecimals.{CardFigures, OldFigures, SameMg};

// What a sum of parts earns, less its shortfall, is its nearest Mg; it has only one, and never both sides at once.
pub fn rounds_to_nearest() -> bool
    ensures { (result ≡ true) × RoundsToNearest engine_unit }
{
    true
}

// Card 4: its figures, those before it, and that the Mg of every old figure are the same once its CF is multiplied by 10.
pub fn same_mg() -> bool
    ensures { (result ≡ true) × CardFigures × OldFigures × SameMg }
{
    true
}

// Card 7: what an accepted table is, that its standards are its entries, and that the built-in one is the printed one.
pub fn card_tables() -> bool
    ensures { (result ≡ true) × CardTables }
{
    true
}

// Card 5: the standard under each edition, and that 17 is exactly where an edition has none.
pub fn card_editions() -> bool
    ensures { (result ≡ true) × CardEditions }
{
    true
}

// The marked figures that figuring settles.
pub fn marked_figures() -> bool
    ensures { (result ≡ true) × FiguringMarked }
{
    true
}
