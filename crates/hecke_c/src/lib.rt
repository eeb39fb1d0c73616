// The calls for programs in C and Rust, on plain numbers and slices; a slice is a pointer and a length.
//
// A call is that of image_walk, towers, tower_words, linear, word_actions, hecke, pairings, traces, sheet or runner with the same
// refusals. It returns 0, or the refusal's number plus 256 times its place; then every lent slice is as it was. What a call
// counts or answers goes to the front of a lent answer, as far as it has room. include/hecke.h has the declarations.
// Each has a function of its own, since C knows it by its name and its types.

#![tactic(auto)]

ghost use Rattle.std.specs.Prelude.{◌≡◌};
ghost use Rattle.ranks.specs.Ranks.{size, scratch_size};
ghost use Rattle.hecke_c.specs.Calls.{tower_of_images, images_of_tower, tower_inverse, tower_product, tower_length, tower_word, tower_descents, sum, scale, act_word, act_signed_word, product, pairing, trace, sheet_check, run_sheet};

use returned::{returned, word};

// The tower of an image list.
// Example: the images 2 3 1 give the tower 0 2; it returns 0.
#[unsafe(no_mangle)]
pub extern "C" fn hecke_tower_of_images(images: &[u8], tower: &mut [u8]) -> u64
    ensures { tower_of_images images.now tower.old ≡ record { word = result; lent = tower.new } }
{
    word(image_walk::tower_of(images, tower))
}

// The image list of a tower.
// Example: the tower 0 2 gives the images 2 3 1; it returns 0.
#[unsafe(no_mangle)]
pub extern "C" fn hecke_images_of_tower(tower: &[u8], images: &mut [u8]) -> u64
    ensures { images_of_tower tower.now images.old ≡ record { word = result; lent = images.new } }
{
    word(towers::images_of(tower, images))
}

// The tower of the inverse of a tower's permutation.
// Example: 0 2 gives 1 1; it returns 0.
#[unsafe(no_mangle)]
pub extern "C" fn hecke_tower_inverse(tower: &[u8], res: &mut [u8]) -> u64
    ensures { tower_inverse tower.now res.old ≡ record { word = result; lent = res.new } }
{
    word(towers::inverse(tower, res))
}

// The tower of the product of two towers' permutations, the first of which acts first.
// Example: 0 2 and 0 1 give 1 2; it returns 0.
#[unsafe(no_mangle)]
pub extern "C" fn hecke_tower_product(left: &[u8], right: &[u8], res: &mut [u8]) -> u64
    ensures { tower_product left.now right.now res.old ≡ record { word = result; lent = res.new } }
{
    word(towers::product(left, right, res))
}

// The length of a tower's permutation, as the answer.
// Example: for 0 2 it returns 0 and answers 2; for 0 3, whose entry at index 1 is too large, it returns 7 + 256.
#[unsafe(no_mangle)]
pub extern "C" fn hecke_tower_length(tower: &[u8], answer: &mut [u64]) -> u64
    ensures { tower_length tower.now answer.old ≡ record { word = result; lent = answer.new } }
{
    returned(tower_words::length(tower), answer)
}

// The standard shortest word of a tower's permutation; the answer is the number of its letters.
// Example: 0 2 gives the word 2 1; it returns 0 and answers 2.
#[unsafe(no_mangle)]
pub extern "C" fn hecke_tower_word(tower: &[u8], word: &mut [u8], answer: &mut [u64]) -> u64
    ensures { tower_word tower.now word.old answer.old
        ≡ record { word = result; lent = word.new; answer = answer.new } }
{
    returned(tower_words::standard_word(tower, word), answer)
}

// The descent set of a tower's permutation: the answer is its mask and the number of its set bits.
// Example: for 0 2 it returns 0 and answers 2 1.
#[unsafe(no_mangle)]
pub extern "C" fn hecke_tower_descents(tower: &[u8], answer: &mut [u64]) -> u64
    ensures { tower_descents tower.now answer.old ≡ record { word = result; lent = answer.new } }
{
    returned(tower_words::descents(tower), answer)
}

// The sum of two elements of rank m; the answer is its count.
// Example: of rank 1, 2 3 and 4 5 give 6 8; it returns 0 and answers 2.
#[unsafe(no_mangle)]
pub extern "C" fn hecke_sum(
    m: usize,
    left: &[u64],
    right: &[u64],
    res: &mut [u64],
    answer: &mut [u64],
) -> u64
    ensures { sum m left.now right.now res.old answer.old
        ≡ record { word = result; lent = res.new; answer = answer.new } }
{
    returned(linear::sum(m, left, right, res), answer)
}

// An element of rank m times the word c; the answer is its count.
// Example: of rank 1, 3 times 2 3 gives 6 9; it returns 0 and answers 2.
#[unsafe(no_mangle)]
pub extern "C" fn hecke_scale(
    m: usize,
    c: u64,
    element: &[u64],
    res: &mut [u64],
    answer: &mut [u64],
) -> u64
    ensures { scale m c element.now res.old answer.old
        ≡ record { word = result; lent = res.new; answer = answer.new } }
{
    returned(linear::scale(m, c, element, res), answer)
}

// The word's generators T_i act on the element of rank m, left to right; the answer is its count.
// Example: of rank 1 with q = 3, the word 1 1 makes 3 2 of 1 0; it returns 0 and answers 6.
#[unsafe(no_mangle)]
pub extern "C" fn hecke_act_word(
    m: usize,
    q: u64,
    word: &[u8],
    element: &mut [u64],
    answer: &mut [u64],
) -> u64
    ensures { act_word m q word.now element.old answer.old
        ≡ record { word = result; lent = element.new; answer = answer.new } }
{
    returned(word_actions::act_word(m, q, word, element), answer)
}

// The word's signed letters act on the element of rank m, left to right, -i as the inverse of T_i; the answer is its count.
// Example: of rank 1 with q = 3, the word 1 1 -1 makes 0 1 of 1 0; it returns 0 and answers 9. For q = 2 the word 1 -1 returns
// 15 + 256.
#[unsafe(no_mangle)]
pub extern "C" fn hecke_act_signed_word(
    m: usize,
    q: u64,
    word: &[i8],
    element: &mut [u64],
    answer: &mut [u64],
) -> u64
    ensures { act_signed_word m q word.now element.old answer.old
        ≡ record { word = result; lent = element.new; answer = answer.new } }
{
    returned(word_actions::act_signed_word(m, q, word, element), answer)
}

// The product of two elements of rank m; the answer is its count.
// Example: of rank 1 with q = 3, 0 1 and 0 1 give 3 2; it returns 0 and answers 9.
#[unsafe(no_mangle)]
pub extern "C" fn hecke_product(
    m: usize,
    q: u64,
    left: &[u64],
    right: &[u64],
    res: &mut [u64],
    scratch: &mut [u64],
    answer: &mut [u64],
) -> u64
    ensures { product m q left.now right.now res.old scratch.old answer.old
        ≡ record { word = result; lent = record { result = res.new; scratch = scratch.new }; answer = answer.new } }
{
    returned(hecke::product(m, q, left, right, res, scratch), answer)
}

// The pairing of two elements of rank m, which is the coefficient of the unit in their product, as the answer.
// Example: of rank 1 with q = 3, for 0 1 and 0 1 it returns 0 and answers 3.
#[unsafe(no_mangle)]
pub extern "C" fn hecke_pairing(
    m: usize,
    q: u64,
    left: &[u64],
    right: &[u64],
    answer: &mut [u64],
) -> u64
    ensures { pairing m q left.now right.now answer.old
        ≡ record { word = result; lent = answer.new } }
{
    returned(pairings::pairing(m, q, left, right), answer)
}

// The trace of an element of rank m with the parameter z, as the answer.
// Example: of rank 1, for every q, for 2 3 and z = 5 it returns 0 and answers 17.
#[unsafe(no_mangle)]
pub extern "C" fn hecke_trace(
    m: usize,
    q: u64,
    z: u64,
    element: &[u64],
    scratch: &mut [u64],
    answer: &mut [u64],
) -> u64
    ensures { trace m q z element.now scratch.old answer.old
        ≡ record { word = result; lent = scratch.new; answer = answer.new } }
{
    returned(traces::trace(m, q, z, element, scratch), answer)
}

// The check of a whole sheet.
// Example: for a lone byte 0 it returns 12.
#[unsafe(no_mangle)]
pub extern "C" fn hecke_sheet_check(sheet: &[u8]) -> u64
    ensures { result ≡ sheet_check sheet.now }
{
    word(sheet::check(sheet))
}

// The run of a whole sheet on lent registers, 4 x 720 words; the answer is its count.
// Example: document 01's sheet makes 3 2 and zeros of register 0; it returns 0 and answers 6.
#[unsafe(no_mangle)]
pub extern "C" fn hecke_run_sheet(sheet: &[u8], registers: &mut [u64], answer: &mut [u64]) -> u64
    ensures { run_sheet sheet.now registers.old answer.old
        ≡ record { word = result; lent = registers.new; answer = answer.new } }
{
    returned(runner::run_into(sheet, registers), answer)
}

// M, the number of words of an element of rank m; 0 above rank 6.
// Example: an element of rank 2 has 6 words.
#[unsafe(no_mangle)]
pub extern "C" fn hecke_size(m: usize) -> usize
    ensures { result ≡ size m }
{
    ranks::size(m)
}

// (m + 6) M, the number of words of scratch that a product or a trace of rank m needs; 0 above rank 6.
// Example: a product of rank 1 needs 14.
#[unsafe(no_mangle)]
pub extern "C" fn hecke_scratch_size(m: usize) -> usize
    ensures { result ≡ scratch_size m }
{
    ranks::scratch_size(m)
}
