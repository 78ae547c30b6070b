//! Texts that are cut in two.
ghost use Rattle.std.specs.Prelude.{◌≡◌, option_map};
ghost use Rattle.deny_text.specs.Cut.{cut_at, is_at_sign, is_colon};

/// What is before the first `@`, and what is behind it.
pub fn cut_at_sign(text: &str) -> Option<(&str, &str)>
    ensures { option_map (λ cut. (cut.0.now, cut.1.now)) result ≡ cut_at is_at_sign text.now }
{
    text.split_once('@')
}

/// What is before the first `:`, and what is behind it.
pub fn cut_at_colon(text: &str) -> Option<(&str, &str)>
    ensures { option_map (λ cut. (cut.0.now, cut.1.now)) result ≡ cut_at is_colon text.now }
{
    text.split_once(':')
}
