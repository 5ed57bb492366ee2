// What the tests judge refusals by.
ghost use Rattle.std.specs.Prelude.{◌≡◌, MatchResult};
ghost use Rattle.model.specs.Questions.{number, accepted};

use model::Settings;

// The number of the first question that is answered by no, or 0: so that what is expected stands as the rules number it.
pub(crate) fn number(settings: Settings) -> u8
    ensures { MatchResult (accepted settings) (λ _. result ≡ 0) (λ refusal. result ≡ number refusal) }
{
    match settings.accept() {
        Ok(_) => 0,
        Err(no) => no.number(),
    }
}
