// What the policies name, as theorems in the words of weights and graphs.
ghost use Rattle.policies.specs.Relations.{HeaviestIsHeavy, ComponentLeads};

// No active column is heavier than the one that heaviest names, and no lower one as heavy.
pub fn heaviest_is_heavy() -> u8
    ensures { HeaviestIsHeavy }
{
    0
}

// Where a row of weight two draws an edge, component over any policy names the lowest column of a connected component;
// none is larger, none as large has a lower column, and the policy below stays as it is. Without an edge that policy names.
pub fn component_leads<P>() -> u8
    ensures { ComponentLeads P }
{
    0
}
