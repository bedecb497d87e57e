// Laws.
ghost use Rattle.std.specs.Prelude.{◌≡◌, List};
ghost use Rattle.sg_lex.specs.declared.fault.ConfigFault.{ConfigFault};
ghost use Rattle.sg_lex.specs.declared.token.Token.{Token};
ghost use Rattle.sg_config.specs.declared.config.Config.{Config};
ghost use Rattle.sg_config.specs.Alike.{AreAlikeConfigs, IsConfigWithin};
ghost use Rattle.sg_config.specs.Means.{Means, IsFaultOfTokens};

use sg_names::names_have_one_fault;
use sg_parse_text::texts_are_of_the_grammar;
use sg_plan::{plans_are_one, plans_are_within};

/// Tokens mean one configuration, or one thing is wrong with them first, and never both. A configuration is
/// within the limits.
pub fn texts_mean_one()
    ensures one { (tokens : List Token) (a b : Config) → Means tokens a → Means tokens b
        → AreAlikeConfigs a b }
    ensures none { (tokens : List Token) (a : Config) (fault : ConfigFault) → Means tokens a
        → IsFaultOfTokens tokens fault → ⊥ }
    ensures one_fault { (tokens : List Token) (fault other : ConfigFault)
        → IsFaultOfTokens tokens fault → IsFaultOfTokens tokens other → fault ≡ other }
    ensures within { (tokens : List Token) (a : Config) → Means tokens a → IsConfigWithin a }
{
    texts_are_of_the_grammar();
    names_have_one_fault();
    plans_are_one();
    plans_are_within();
}
