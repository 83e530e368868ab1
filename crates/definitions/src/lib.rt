#![tactic(auto)]

ghost use Rattle.definitions.specs.Laws.{OneFront, ThereTests, LentInLimit, WindowInLimit, EexecInLimit, StepPasses, ClassPasses, PassedInLimit};
ghost use Rattle.definitions.specs.Laws.{OneGap, GapComputed, OneReading, ReadingComputed, OneEachGap, OutcomeComputed, TwoExactly};
ghost use Rattle.definitions.specs.Laws.{DecodesOrEnds, NeverBoth, TextDecodes, OneDecoding, DecodingComputed, OneDecodedSource, OneDecodedObject};
ghost use Rattle.definitions.specs.Laws.{OneNearest, OneInteger, AcceptsComputed, NearComputed, OneAnswer, OneTurn, PartedComputed, TakesComputed, RefusesComputed, LooksComputed, OneKind, OneReason, OneRun, RunInLimit, RunIsShared};
ghost use Rattle.definitions.specs.Laws.{OneText, OneLine, LineFits, TurnFits, OneWriting, OneListing};
ghost use Rattle.definitions.specs.Worked.{Worked};

// the theorems of sources: what a class passes, the limit of each layer, and what a move passes
pub fn sources_stand()
    ensures class { OneFront }
    ensures there { ThereTests }
    ensures lent { LentInLimit }
    ensures window { WindowInLimit }
    ensures eexec { EexecInLimit }
    ensures step { StepPasses }
    ensures pass { ClassPasses }
    ensures stays { PassedInLimit }
{}

// the theorems of the grammar, asked for by contracts
pub fn grammar_stands()
    ensures gap { OneGap }
    ensures reading { OneReading }
    ensures outcome { OneEachGap }
    ensures passes { GapComputed }
    ensures reads { ReadingComputed }
    ensures comes { OutcomeComputed }
    ensures two { TwoExactly }
{}

// the theorems of literal text and its decoder
pub fn text_stands()
    ensures some { DecodesOrEnds }
    ensures apart { NeverBoth }
    ensures text { TextDecodes }
    ensures one { OneDecoding }
    ensures decodes { DecodingComputed }
    ensures source { OneDecodedSource }
    ensures object { OneDecodedObject }
{}

// the theorems of the plain reader and of a shared scanner
pub fn reader_stands()
    ensures nearest { OneNearest }
    ensures integer { OneInteger }
    ensures accepts { AcceptsComputed }
    ensures near { NearComputed }
    ensures answer { OneAnswer }
    ensures turn { OneTurn }
    ensures parts { PartedComputed }
    ensures takes { TakesComputed }
    ensures refuses { RefusesComputed }
    ensures looks { LooksComputed }
    ensures kind { OneKind }
    ensures reason { OneReason }
    ensures run { OneRun }
    ensures stays { RunInLimit }
    ensures shared { RunIsShared }
{}

// the theorems of a listing
pub fn listing_stands()
    ensures text { OneText }
    ensures line { OneLine }
    ensures fits { LineFits }
    ensures turns { TurnFits }
    ensures writes { OneWriting }
    ensures listing { OneListing }
{}

// the worked cases
pub fn cases_stand()
    ensures cases { Worked }
{}
