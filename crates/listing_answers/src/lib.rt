// The answers of writing and reading a listing as C callers are told them (document 02, §1): the number, how many bytes were written, the counts
// that were read.
// Not here: writing and reading (`listing_writing`, `listing_reading`), the two with their answers told (`station_listings`).
// Contracts: `writing_number`, `store_length`, `reading_number`, `store_read`. Definitions: `specs/Answers.antt`. Laws: `proofs/Laws.antt`.
#![tactic(auto)]

ghost use Rattle.std.specs.Prelude.{◌≡◌};
ghost use Rattle.listings.specs.Handing.{writing_number, reading_number};
ghost use Rattle.listing_answers.specs.Answers.{length_after, counts_read};

use listings::{ListingRefusal, WritingRefusal};
use station_answers::store_counts;
use tables::Counts;

// The number of an answer to writing.
pub fn writing_number(answer: Result<usize, WritingRefusal>) -> u32
    ensures { result ≡ writing_number answer }
{
    match answer {
        Ok(_written) => 0,
        Err(WritingRefusal::NotClosed) => 30,
        Err(WritingRefusal::OverCeilings) => 2,
        Err(WritingRefusal::TooShort) => 4,
    }
}

// Stores how many bytes were written, if any were.
pub fn store_length(length: &mut usize, answer: Result<usize, WritingRefusal>)
    ensures { length.new ≡ length_after length.old answer }
{
    if let Ok(n) = answer {
        *length = n;
    }
}

// The number of an answer to reading.
pub fn reading_number(answer: Result<Counts, ListingRefusal>) -> u32
    ensures { result ≡ reading_number answer }
{
    match answer {
        Ok(_read) => 0,
        Err(ListingRefusal::NotListing) => 40,
        Err(ListingRefusal::OverCeilings) => 2,
        Err(ListingRefusal::NoRoom) => 4,
        Err(ListingRefusal::NotClosed) => 30,
    }
}

// Stores the counts of a listing that was read.
pub fn store_read(counts: &mut [usize; 3], answer: Result<Counts, ListingRefusal>)
    ensures { counts.new ≡ counts_read counts.old answer }
{
    if let Ok(c) = answer {
        store_counts(counts, c);
    }
}
