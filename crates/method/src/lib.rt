// The elimination method. It stands in specs/ as a definition; each function here carries a theorem above it,
// for every symbol kind that keeps its laws, every lawful code and every lawful policy.
#![tactic(auto)]

ghost use Rattle.method.specs.Theorems.{TellsExactly, PivotsTell, ColumnsNamedInTurn, PolicyAltersNoAnswer, ShortfallByPlacesAlone, Doubles, FinalState, PoliciesName};

use symbols::Symbol;

// The answer is none, one or several exactly when no, just one, at least two codewords agree; and the one is given.
pub fn tells_exactly<S: Symbol, P>() -> u8
    ensures { TellsExactly S S.Symbol.kind P }
{
    0
}

// No pivot is named exactly when no stopping set lies among the missing places.
pub fn pivots_tell<S: Symbol, P>() -> u8
    ensures { PivotsTell S S.Symbol.kind P }
{
    0
}

// The pivots are columns named in turn, each where peeling stalls.
pub fn named_in_turn<S: Symbol, P>() -> u8
    ensures { ColumnsNamedInTurn S S.Symbol.kind P }
{
    0
}

// With another policy an answer differs in the counts of its work only.
pub fn policy_alters_no_answer<S: Symbol, P, Q>() -> u8
    ensures { PolicyAltersNoAnswer S S.Symbol.kind P Q }
{
    0
}

// The number of free pivots goes by the code and the missing places: not by the symbols, their kind, or the policy.
pub fn shortfall_by_places_alone<S: Symbol, P, T: Symbol, Q>() -> u8
    ensures { ShortfallByPlacesAlone S S.Symbol.kind P T T.Symbol.kind Q }
{
    0
}

// Of symbols with two values, twice as many codewords agree for each free pivot.
pub fn doubles<S: Symbol, P>() -> u8
    ensures { Doubles S S.Symbol.kind P }
{
    0
}

// At the end every unused row is empty, and a used row holds its own column and free pivots only.
pub fn final_state<S: Symbol, P>() -> u8
    ensures { FinalState S S.Symbol.kind P }
{
    0
}

// First, heaviest, component over another policy and replay over another policy keep the law of a policy.
pub fn policies_name<P>() -> u8
    ensures { PoliciesName P }
{
    0
}
