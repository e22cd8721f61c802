ghost use Rattle.std.specs.Prelude.{◌≡◌, map};
ghost use Rattle.js_syntax.specs.Parts.{text_at, is_set_at};

/// The text numbered `n`; an empty one where there is none.
pub fn text_at<'a>(texts: &[&'a str], n: usize) -> &'a str
    ensures { result.now ≡ text_at n (map (λ x. x.now) texts.now) }
{
    match texts.get(n) {
        Some(text) => text,
        None => "",
    }
}

/// Whether it is a flag that is set.
pub fn is_set_at(texts: &[&str], n: usize) -> bool
    ensures { result ≡ is_set_at n (map (λ x. x.now) texts.now) }
{
    !text_at(texts, n).is_empty()
}
