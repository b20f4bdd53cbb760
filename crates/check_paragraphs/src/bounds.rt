//! Whether the numbers of a style are those of a computed one (CSS 2, 4.3.2).

ghost use Rattle.std.specs.Prelude.{◌≡◌, ◌<◌, ◌≤ℤ◌, pos, true};
ghost use Rattle.style_types.specs.Style.{AreBorders, AreInsets, IsBounded, IsCombine, IsExtent, IsLength, IsLineHeight, IsMargin, IsPadding, IsShare, IsSize, OnSides};
ghost use Rattle.wm_units.specs.Numbers.{IsSayable};

use style_types::{Combine, Insets, LineHeight, SideSizes, SideWidths, Size, Style};

const GREATEST_LENGTH: i64 = 1 << 32;

const GREATEST_HUNDREDTHS: i64 = 999_999_999;

/// Whether a style has the bounds of a computed one.
pub(crate) fn is_bounded(style: &Style) -> bool
    ensures { result ≡ true → IsBounded style.now }
{
    is_combine(style.combine)
        && is_within(style.font_size, 65_536)
        && style.face < 8
        && is_line_height(style.line_height)
        && is_length(style.shift)
        && are_sizes(style)
        && are_margins(&style.margin)
        && are_paddings(&style.padding)
        && are_borders(&style.border)
        && are_insets(&style.insets)
}

fn is_within(number: i64, greatest: i64) -> bool
    ensures low { result ≡ true → pos 0 ≤ℤ number }
    ensures high { result ≡ true → number ≤ℤ greatest }
{
    0 <= number && number <= greatest
}

fn is_length(length: i64) -> bool
    ensures { result ≡ true → IsLength length }
{
    -GREATEST_LENGTH <= length && length <= GREATEST_LENGTH
}

fn is_extent(length: i64) -> bool
    ensures { result ≡ true → IsExtent length }
{
    is_within(length, GREATEST_LENGTH)
}

fn is_share(hundredths: i64) -> bool
    ensures { result ≡ true → IsShare hundredths }
{
    is_within(hundredths, GREATEST_HUNDREDTHS)
}

fn is_combine(combine: Combine) -> bool
    ensures { result ≡ true → IsCombine combine }
{
    match combine {
        Combine::Never | Combine::All => true,
        Combine::Digits(most) => 2 <= most && most <= 4,
    }
}

fn is_line_height(height: LineHeight) -> bool
    ensures { result ≡ true → IsLineHeight height }
{
    match height {
        LineHeight::Normal => true,
        LineHeight::Number(hundredths) => is_share(hundredths),
        LineHeight::Length(length) => is_extent(length),
    }
}

fn are_sizes(style: &Style) -> bool
    ensures width { result ≡ true → IsSize style.now.width }
    ensures height { result ≡ true → IsSize style.now.height }
    ensures min_width { result ≡ true → IsSize style.now.min_width }
    ensures min_height { result ≡ true → IsSize style.now.min_height }
    ensures max_width { result ≡ true → IsSize style.now.max_width }
    ensures max_height { result ≡ true → IsSize style.now.max_height }
{
    is_size(style.width)
        && is_size(style.height)
        && is_size(style.min_width)
        && is_size(style.min_height)
        && is_size(style.max_width)
        && is_size(style.max_height)
}

fn is_size(size: Size) -> bool
    ensures { result ≡ true → IsSize size }
{
    match size {
        Size::Auto => true,
        Size::Length(length) => is_extent(length),
        Size::Percent(hundredths) => is_share(hundredths),
    }
}

fn are_margins(margin: &SideSizes) -> bool
    ensures { result ≡ true → OnSides IsMargin margin.now }
{
    is_margin(margin.top)
        && is_margin(margin.right)
        && is_margin(margin.bottom)
        && is_margin(margin.left)
}

fn is_margin(margin: Size) -> bool
    ensures { result ≡ true → IsMargin margin }
{
    match margin {
        Size::Auto => true,
        Size::Length(length) => is_length(length),
        Size::Percent(hundredths) => {
            -GREATEST_HUNDREDTHS <= hundredths && hundredths <= GREATEST_HUNDREDTHS
        }
    }
}

fn are_paddings(padding: &SideSizes) -> bool
    ensures { result ≡ true → OnSides IsPadding padding.now }
{
    is_padding(padding.top)
        && is_padding(padding.right)
        && is_padding(padding.bottom)
        && is_padding(padding.left)
}

fn is_padding(padding: Size) -> bool
    ensures { result ≡ true → IsPadding padding }
{
    match padding {
        Size::Auto => false,
        Size::Length(length) => is_extent(length),
        Size::Percent(hundredths) => is_share(hundredths),
    }
}

fn are_borders(border: &SideWidths) -> bool
    ensures { result ≡ true → AreBorders border.now }
{
    is_extent(border.top)
        && is_extent(border.right)
        && is_extent(border.bottom)
        && is_extent(border.left)
}

fn are_insets(insets: &Insets) -> bool
    ensures { result ≡ true → AreInsets insets.now }
{
    is_margin(insets.top)
        && is_margin(insets.right)
        && is_margin(insets.bottom)
        && is_margin(insets.left)
}
