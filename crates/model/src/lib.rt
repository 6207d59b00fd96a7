// The model has no code of its own: each function here carries a fact about the definitions of specs/, so that the
// gate asks for its proof.
#![tactic(auto)]

ghost use Rattle.std.specs.Prelude.{true, false, ◌≡◌, length};
ghost use Rattle.model.specs.Examples.{shop, hasty};
ghost use Rattle.model.specs.Keeps.{kept};
ghost use Rattle.model.specs.Rows.{row_g};
ghost use Rattle.model.specs.Theorems.{OneProgram, ShopShows, Ends, Pictured, WaitingEnds, TwoThatWait, NeverJams, EitherOrder, SameEnd, SameSteps, AnyOrder, HasEnd, SameEndAhead, Confluent, CrowdedAlike};

// The clerk and the till keep to their conversation, and their rows are this many words; the hasty clerk is careless.
pub fn shop_words() -> u32
    ensures words { result ≡ length (row_g shop) }
    ensures keeps { kept shop ≡ true }
    ensures careless { kept hasty ≡ false }
{
    63
}

// Words are the writing of at most one program.
fn one_program()
    ensures { OneProgram }
{}

// Every order of steps comes to an end.
fn every_order_ends()
    ensures { Ends }
{}

// Of programs that keep, at every moment: lines and who holds their ends, who waits for whom, and that no order jams.
fn no_order_jams()
    ensures pictured { Pictured }
    ensures follows { WaitingEnds }
    ensures two { TwoThatWait }
    ensures progress { NeverJams }
{}

// Of programs that keep: all orders come to the same.
fn all_orders_agree()
    ensures diamond { EitherOrder }
    ensures ahead { HasEnd }
    ensures one { SameEndAhead }
    ensures confluent { Confluent }
    ensures end { SameEnd }
    ensures steps { SameSteps }
    ensures results { AnyOrder }
    ensures crowded { CrowdedAlike }
{}

// The clerk and the till, with one turn, come to an end, and show 42 in all orders.
fn shop_shows()
    ensures { ShopShows 42 }
{}
