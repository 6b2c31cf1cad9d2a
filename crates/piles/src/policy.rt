// Which policy names the pivots, by the words of a line.
ghost use Rattle.std.specs.Prelude.{◌≡◌};
ghost use Rattle.piles.specs.Policies.{plain_policy, component_over, policy_of};

use script::{only_word, split_word};

#[derive(Clone, Copy, PartialEq, Eq, Debug)]
pub enum PolicyName {
    First,
    Heaviest,
    ComponentFirst,
    ComponentHeaviest,
}

// first · heaviest
fn plain_policy(word: &[u8]) -> Option<PolicyName>
    ensures { result ≡ plain_policy word.now }
{
    match word {
        b"first" => Some(PolicyName::First),
        b"heaviest" => Some(PolicyName::Heaviest),
        _ => None,
    }
}

// Component over a plain policy. Two of the four cases come: a third enum would be turned back wherever a policy is named.
fn component_over(policy: PolicyName) -> PolicyName
    ensures { result ≡ component_over policy }
{
    match policy {
        PolicyName::Heaviest | PolicyName::ComponentHeaviest => PolicyName::ComponentHeaviest,
        PolicyName::First | PolicyName::ComponentFirst => PolicyName::ComponentFirst,
    }
}

// The policy that a line writes; none where it is not understood.
pub fn read_policy(line: &[u8]) -> Option<PolicyName>
    ensures { result ≡ policy_of line.now }
{
    match split_word(line) {
        (b"component", rest) => plain_policy(only_word(rest)?).map(component_over),
        _ => plain_policy(only_word(line)?),
    }
}
