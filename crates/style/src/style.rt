//! Attributes, style sheets and styled contents.

ghost use Rattle.std.specs.Prelude.{◌≡◌, Decides, nat_lt};
ghost use Rattle.style.specs.Attrs.{no_flags, Contains, joined, bits_of, attributes_of, BitsTell, without};
ghost use Rattle.style.specs.Bytes.{optional_bytes, style_bytes, BytesTell};
ghost use Rattle.style.specs.Styles.{plain, is_plain, OnlyPlain, styled, Alike, with_fg, with_bg, with_attr};
ghost use Rattle.style.specs.Deciding.{attributes_decide, styles_decide, styled_alike};

use crate::color::Color;
use crate::meaning::EqMeans;
use std::fmt::Display;
use std::ops::BitOr;

/// Attributes of text. They are flags and can be combined.
///
/// Italic stands first, so that the derived order is that of the numbers.
#[derive(PartialEq, Eq, PartialOrd, Ord, Hash, Debug, Clone, Copy)]
pub struct Attributes {
    italic: bool,
    bold: bool,
}

impl Attributes {
    /// Increases the text's intensity.
    pub const BOLD: Attributes = Attributes {
        italic: false,
        bold: true,
    };

    /// Emphasises the text.
    pub const ITALIC: Attributes = Attributes {
        italic: true,
        bold: false,
    };

    /// No attribute.
    pub fn empty() -> Attributes
        ensures { result ≡ no_flags }
    {
        Attributes {
            italic: false,
            bold: false,
        }
    }

    /// Whether there is no attribute.
    pub fn is_empty(&self) -> bool
        ensures { Decides result (self.now ≡ no_flags) }
    {
        !self.italic && !self.bold
    }

    /// Whether each attribute of `other` is there.
    pub fn contains(&self, other: Attributes) -> bool
        ensures { Decides result (Contains self.now other) }
    {
        (self.italic || !other.italic) && (self.bold || !other.bold)
    }

    /// The attributes that `other` has not.
    pub fn difference(&self, other: Attributes) -> Attributes
        ensures { result ≡ without self.now other }
    {
        Attributes {
            italic: self.italic && !other.italic,
            bold: self.bold && !other.bold,
        }
    }

    /// The number of these attributes: bold counts 1 and italic 2. No `From`: `bits` is the name that flags have for it.
    pub fn bits(&self) -> u8
        ensures { result ≡ bits_of self.now }
    {
        u8::from(self.italic) * 2 + u8::from(self.bold)
    }

    /// The attributes with this number. There are none above 3.
    // No `TryFrom`: its error would say no more than `None` does.
    pub fn from_bits(bits: u8) -> Option<Attributes>
        ensures value { result ≡ attributes_of bits }
        ensures law { BitsTell }
    {
        match bits {
            0 => Some(Attributes::empty()),
            1 => Some(Attributes::BOLD),
            2 => Some(Attributes::ITALIC),
            3 => Some(Attributes::BOLD | Attributes::ITALIC),
            _ => None,
        }
    }
}

impl EqMeans for Attributes {
    ghost means = { λ a b same. Decides same (a ≡ b) };

    ghost holds = { attributes_decide };
}

impl BitOr<Attributes> for Attributes {
    type Output = Attributes;

    ghost bitor_gives = { λ a b r. r ≡ joined a b };

    fn bitor(self, other: Attributes) -> Attributes {
        Attributes {
            italic: self.italic || other.italic,
            bold: self.bold || other.bold,
        }
    }
}

/// The colours and attributes of a text.
#[derive(Copy, Clone, Debug, PartialEq, Eq, Hash)]
pub struct StyleSheet {
    /// Foreground colour.
    pub fg: Option<Color>,
    /// Background colour.
    pub bg: Option<Color>,
    pub att: Attributes,
}

impl StyleSheet {
    /// A style sheet with no colours and no attributes.
    pub fn new() -> StyleSheet
        ensures { result ≡ plain }
    {
        Self::empty()
    }

    /// A style sheet with no colours and no attributes.
    pub fn empty() -> StyleSheet
        ensures { result ≡ plain }
    {
        StyleSheet {
            fg: None,
            bg: None,
            att: Attributes::empty(),
        }
    }

    /// Whether there are no colours and no attributes.
    pub fn is_empty(&self) -> bool
        ensures value { result ≡ is_plain self.now }
        ensures law { OnlyPlain }
    {
        self.fg.is_none() && self.bg.is_none() && self.att.is_empty()
    }

    /// The same style with this foreground colour.
    pub fn with_fg(mut self, fg: Color) -> StyleSheet
        ensures { result ≡ with_fg self fg }
    {
        self.fg = Some(fg);
        self
    }

    /// The same style with this background colour.
    pub fn with_bg(mut self, bg: Color) -> StyleSheet
        ensures { result ≡ with_bg self bg }
    {
        self.bg = Some(bg);
        self
    }

    /// The same style with these attributes in place of its own. To keep those, join them by `|`.
    pub fn with_attr(mut self, attributes: Attributes) -> StyleSheet
        ensures { result ≡ with_attr self attributes }
    {
        self.att = attributes;
        self
    }

    /// Nine bytes that no other style has.
    #[inline]
    #[tactic(auto, using(crate::proofs::Together::bytes_tell, crate::proofs::Together::put_together))]
    pub fn to_bytes(&self) -> [u8; 9]
        ensures value { result ≡ style_bytes self.now }
        ensures law { BytesTell }
    {
        let [fg_kind, fg_0, fg_1, fg_2] = optional_bytes(self.fg);
        let [bg_kind, bg_0, bg_1, bg_2] = optional_bytes(self.bg);
        [
            fg_kind,
            fg_0,
            fg_1,
            fg_2,
            bg_kind,
            bg_0,
            bg_1,
            bg_2,
            self.att.bits(),
        ]
    }
}

/// Four bytes of a colour that may be missing: then all are 0.
fn optional_bytes(color: Option<Color>) -> [u8; 4]
    ensures { result ≡ optional_bytes color }
{
    color.map_or([0; 4], Color::to_bytes)
}

// Not derived, and so for `Styled`: a derive would promise a default of each field, and not that the style is plain.
impl Default for StyleSheet {
    ghost is_default = { λ s. s ≡ plain };

    /// A style sheet with no colours and no attributes.
    fn default() -> StyleSheet {
        StyleSheet::empty()
    }
}

impl EqMeans for StyleSheet {
    ghost means = { λ s t same. Decides same (s ≡ t) };

    ghost holds = { styles_decide };
}

/// A content with the style that it is to be shown in.
#[derive(Copy, Clone, Debug, PartialEq, Eq, Drop)]
pub struct Styled<T>
where
    T: Display,
{
    pub content: T,
    pub style: StyleSheet,
}

impl<T> Styled<T>
where
    T: Display,
{
    /// This content in the empty style.
    pub fn new(content: T) -> Styled<T>
        ensures { result ≡ styled content plain }
    {
        Styled {
            content,
            style: StyleSheet::default(),
        }
    }

    /// The same content in this style.
    pub fn with_style_sheet(mut self, style_sheet: StyleSheet) -> Styled<T>
        ensures { result ≡ styled self.content style_sheet }
    {
        self.style = style_sheet;
        self
    }

    /// The same content with this foreground colour.
    pub fn with_fg(mut self, fg: Color) -> Styled<T>
        ensures { result ≡ styled self.content (with_fg self.style fg) }
    {
        self.style = self.style.with_fg(fg);
        self
    }

    /// The same content with this background colour.
    pub fn with_bg(mut self, bg: Color) -> Styled<T>
        ensures { result ≡ styled self.content (with_bg self.style bg) }
    {
        self.style = self.style.with_bg(bg);
        self
    }

    /// The same content with these attributes in place of its own.
    pub fn with_attr(mut self, attributes: Attributes) -> Styled<T>
        ensures { result ≡ styled self.content (with_attr self.style attributes) }
    {
        self.style = self.style.with_attr(attributes);
        self
    }

    /// This content in the same style.
    pub fn with_content<U>(self, content: U) -> Styled<U>
    where
        T: Drop,
        U: Display,
        ensures { result ≡ styled content self.style }
    {
        Styled {
            content,
            style: self.style,
        }
    }
}

impl<T> From<T> for Styled<T>
where
    T: Display,
{
    ghost from_gives = { λ x r. r ≡ styled x plain };

    fn from(content: T) -> Styled<T> {
        Styled::new(content)
    }
}

impl<T> Default for Styled<T>
where
    T: Default + Display,
{
    ghost is_default = { λ s. T.Default.is_default s.content × (s.style ≡ plain) };

    fn default() -> Styled<T> {
        Styled::new(T::default())
    }
}

impl<T> EqMeans for Styled<T>
where
    T: PartialEq + Display,
{
    ghost means = { Alike (λ x y same. same ≡ T.eq x y) };

    ghost holds = { styled_alike.at T.eq };
}

#[cfg(test)]
mod tests {
    use super::*;

    // Callers of each `==` learn that it decides equality.
    fn same_color(a: Color, b: Color) -> bool
        ensures { Decides result (a ≡ b) }
    {
        a == b
    }

    fn same_attributes(a: Attributes, b: Attributes) -> bool
        ensures { Decides result (a ≡ b) }
    {
        a == b
    }

    #[tactic(auto, using(crate::specs::Deciding::styles_decide))]
    fn same_style(a: StyleSheet, b: StyleSheet) -> bool
        ensures { Decides result (a ≡ b) }
    {
        a == b
    }

    // The derived order is that of the numbers.
    fn below(a: Attributes, b: Attributes) -> bool
        ensures { result ≡ nat_lt (bits_of a) (bits_of b) }
    {
        a < b
    }

    #[test]
    fn attributes_combine(rt: HostRuntime) {
        let both = Attributes::ITALIC | Attributes::BOLD;
        assert!(rt; both.contains(Attributes::BOLD));
        assert!(rt; both.contains(Attributes::ITALIC));
        assert_eq!(rt; both.bits(), 3);
        assert!(rt; below(Attributes::BOLD, Attributes::ITALIC));
        assert!(rt; same_attributes(both, Attributes::BOLD | Attributes::ITALIC));
    }

    #[test]
    fn default_is_empty(rt: HostRuntime) {
        let style = StyleSheet::default();
        assert!(rt; style.is_empty());
        let style = style
            .with_bg(Color::DarkBlue)
            .with_attr(Attributes::ITALIC | Attributes::BOLD);
        assert!(rt; !style.is_empty());
        assert!(rt; !same_style(style, StyleSheet::new()));
    }

    #[test]
    fn with_attr_replaces(rt: HostRuntime) {
        let bold = StyleSheet::default().with_attr(Attributes::BOLD);
        let italic = bold.with_attr(Attributes::ITALIC);
        assert!(rt; !italic.att.contains(Attributes::BOLD));
        assert!(rt; italic.att.contains(Attributes::ITALIC));
        let both = italic.with_attr(italic.att | Attributes::BOLD);
        assert!(rt; both.att.contains(Attributes::BOLD) && both.att.contains(Attributes::ITALIC));
    }

    #[test]
    fn content_changes_alone(rt: HostRuntime) {
        let one = Styled::new("a").with_fg(Color::rgb(42, 17, 97));
        let two = one.with_content("b");
        assert!(rt; one != two);
        assert!(rt; two.with_content("a") == one);
        assert!(rt;
            same_color(
                Color::rgb(42, 17, 97),
                Color::Rgb {
                    r: 42,
                    g: 17,
                    b: 97,
                },
            )
        );
    }
}
