//! What follows for every dictionary from what its answers are defined to be, and the order in which its entries stand.
ghost use Rattle.std.specs.Prelude.{◌≡◌};
ghost use Rattle.wire.specs.declared.multiplexor.Multiplexor.{Multiplexor};
ghost use Rattle.wire.specs.Multiplexors.{before as by_index};
ghost use Rattle.search.specs.Orders.{earlier, Connected};
ghost use Rattle.dictionary.specs.Laws.{ValueSet, RefusedKept, OthersKept, OrderKept, AttributesKept, LawfulKept};
ghost use Rattle.dictionary.specs.Laws.{NextFound, NextNone, OneEntry, ValueBounded, ReadDecided, WriteDecided, StartDecided};

use wire::Multiplexor;

/// States the laws that hold of every dictionary, whatever implements it.
pub fn dictionary_laws()
    ensures value_set { ValueSet }
    ensures refused_kept { RefusedKept }
    ensures others_kept { OthersKept }
    ensures order_kept { OrderKept }
    ensures attributes_kept { AttributesKept }
    ensures lawful_kept { LawfulKept }
    ensures next_found { NextFound }
    ensures next_none { NextNone }
    ensures one_entry { OneEntry }
    ensures value_bounded { ValueBounded }
    ensures read_decided { ReadDecided }
    ensures write_decided { WriteDecided }
    ensures start_decided { StartDecided }
{}

/// States that multiplexors stand in order of index, then of subindex, and that of two others one stands before the other.
pub fn multiplexors_ordered()
    ensures before { (a b : Multiplexor) → earlier ⟦<Multiplexor as Ord>⟧.cmp a b ≡ by_index a b }
    ensures connected { Connected (earlier ⟦<Multiplexor as Ord>⟧.cmp) }
{}
