//! Laws for all grammars over the signs `C`, whose rules have the names `N`, and which mark parts by the labels `L`.
//! The functions compute nothing: their contracts are the laws, which `specs/Laws.antt`, `specs/Words.antt` and
//! `specs/NextWords.antt` state.

ghost use Rattle.grammars.specs.Laws.{
  EndIsReading,
  FoundIsReading,
  LeftIsFault,
  ListIsWritten,
  NextGoesOn,
  OneFault,
  OneReading,
  ReadsOrFails,
  RunIsComplete,
  RunIsSound,
  StuckIsFault,
  TestIsDeterministic,
  TestIsProductive,
};
ghost use Rattle.grammars.specs.NextWords.{
  EndSees,
  FirstSees,
  LacksSees,
  ListEnds,
  ListLast,
  ListMoves,
  ListStays,
  ListStuck,
  ListWaits,
  ManyLast,
  ManyMoves,
  ManyStays,
  ManyStuck,
  MarkSees,
  NeitherSees,
  NextIsSeen,
  NothingSees,
  SecondSees,
  SeesIsNext,
  SignSees,
  ThenMoves,
  ThenStays,
  ThenStuck,
  ToSees,
};
ghost use Rattle.grammars.specs.Words.{
  ElementFinds,
  FirstFinds,
  LacksFinds,
  MarkFinds,
  MoreFinds,
  NothingFinds,
  OtherFinds,
  SecondFinds,
  SignFinds,
  SkipsFinds,
  ThenFinds,
  ToFinds,
};

/// The machine of any grammar reads only what the grammar derives. If one sign decides at each choice of the grammar,
/// the machine reads all that the grammar derives. In both cases the signs of the events are exactly the signs that
/// were read.
///
/// `Listed (Sign is_word) (Sign is_comma)` reads `a , b` and `a , b ,`, but not `a , ,`.
pub fn machine_reads<C, N, L>()
    ensures sound { RunIsSound C N L }
    ensures complete { RunIsComplete C N L }
{}

/// By a grammar that passes the tests, signs have either exactly one reading or exactly one error. The signs before the
/// error are the longest prefix that can go on to a whole reading.
///
/// By `Listed (Sign is_word) (Sign is_comma)`, the error of `a , , b` is at the second comma. `a ,` is a whole reading,
/// but no reading begins with `a , ,`.
pub fn one_reading<C, N, L>()
    ensures reading { OneReading C N L }
    ensures otherwise { ReadsOrFails C N L }
    ensures fault { OneFault C N L }
{}

/// A reader that takes a step at each sign, and stops at the first sign without a step, finds the reading or the error.
/// If no sign is left, it has the one reading. Otherwise the error is at the first sign that is left.
pub fn found_tells<C, N, L>()
    ensures reading { FoundIsReading C N L }
    ensures left { LeftIsFault C N L }
    ensures stuck { StuckIsFault C N L }
{}

/// What the machine has left to read after some signs says what can come next. A sign is in its first set exactly if
/// the signs before it can go on to a whole reading with this sign. It derives no sign exactly if the signs before it
/// are a whole reading.
///
/// After `a ,` by `Listed (Sign is_word) (Sign is_comma)`, the first set has the words, and no sign need follow.
pub fn next_signs<C, N, L>()
    ensures next { NextGoesOn C N L }
    ensures end { EndIsReading C N L }
{}

/// If the tests of a grammar pass, one sign decides at each choice of the grammar, and each of its parts derives
/// something. The tests can be computed if a test of signs can be tried on every sign.
pub fn tests_hold<C, N, L>()
    ensures deterministic { TestIsDeterministic C N L }
    ensures productive { TestIsProductive C N L }
{}

/// `Listed a s` derives the same as `( a ( s a )* s? )?`. The second is not deterministic: a separator may be the last
/// one, or another element may follow it.
pub fn lists<C, N, L>()
    ensures written { ListIsWritten C N L }
{}

/// What each constructor of `Grammar` finds at the start of some signs, in terms of what its parts find there. These
/// equations prove a reader that has a function for each rule.
pub fn words_find<C, N, L>()
    ensures lacks { LacksFinds C N L }
    ensures skips { SkipsFinds C N L }
    ensures nothing { NothingFinds C N L }
    ensures mark { MarkFinds C N L }
    ensures sign { SignFinds C N L }
    ensures to { ToFinds C N L }
    ensures both { ThenFinds C N L }
    ensures first { FirstFinds C N L }
    ensures second { SecondFinds C N L }
    ensures other { OtherFinds C N L }
    ensures more { MoreFinds C N L }
    ensures element { ElementFinds C N L }
{}

/// How far each constructor of `Grammar` reads, and what can come next there, in terms of what its parts see. These
/// equations prove a function that finds the signs that were expected at an error, by cases on the constructor.
pub fn words_see<C, N, L>()
    ensures next { SeesIsNext C N L }
    ensures seen { NextIsSeen C N L }
    ensures lacks { LacksSees C N L }
    ensures at_end { EndSees C N L }
    ensures nothing { NothingSees C N L }
    ensures mark { MarkSees C N L }
    ensures sign { SignSees C N L }
    ensures to { ToSees C N L }
    ensures then_stuck { ThenStuck C N L }
    ensures then_moves { ThenMoves C N L }
    ensures then_stays { ThenStays C N L }
    ensures first { FirstSees C N L }
    ensures second { SecondSees C N L }
    ensures neither { NeitherSees C N L }
    ensures many_stays { ManyStays C N L }
    ensures many_stuck { ManyStuck C N L }
    ensures many_moves { ManyMoves C N L }
    ensures many_last { ManyLast C N L }
    ensures list_stays { ListStays C N L }
    ensures list_stuck { ListStuck C N L }
    ensures list_ends { ListEnds C N L }
    ensures list_waits { ListWaits C N L }
    ensures list_moves { ListMoves C N L }
    ensures list_last { ListLast C N L }
{}
