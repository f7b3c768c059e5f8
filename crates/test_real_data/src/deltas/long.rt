//! A text of three windows, and an edit of it.
use anyhow::Result;
use md5::{Digest, Md5};
use std::alloc::{AllocError, Global};
use svndiff::{decode, encode};

const LEN: usize = 250_000;

/// `svnrdump dump` of Subversion 1.14.2 wrote this of an edit of the text: seven bytes put in at 1,000, and a hundred taken out after 150,000.
const EDIT: &str =
    "53564e000086a00086a0000b0700876800870086981187686368616e67656486a00086a00086a0000f64870082f370000083ab2c82f454805d50a27df8100b4f18d10b29649ca2b793c5127940f92cdfac8ad2d4460b66bbfdadf42a465c1f69ec99cca99b1690042a13da38ac7be02335bd4bfe6c6ca159d59576dadbe452b5a07561eb857bdd4278933c0700e619860a01e346717447054f2c5e76068cc00082e11082e03305000082e0335d";

/// The MD5 that svnrdump wrote of the text, of the edited one, and the MD5 of the delta that it wrote of the whole text.
const TEXT_MD5: &str = "4bc7fda8c6e72c7a2641b8f2ef5c5ddd";

const EDITED_MD5: &str = "79d0f7eece808b46c442abfa8a441943";

const DELTA_MD5: &str = "05a2c6c8b95cc2659ac93a8e0ee81483";

// Bytes without a pattern.
fn text(alloc: Global) -> Result<Vec<u8>, AllocError> {
    let mut text = Vec::with_capacity(alloc, LEN)?;
    let mut state = 1u32;
    for _ in 0..LEN {
        state = state.wrapping_mul(1_103_515_245).wrapping_add(12_345);
        text.push((state >> 16 & 255) as u8)?;
    }
    Ok(text)
}

// The MD5 of bytes in hexadecimal.
fn md5_of(alloc: Global, bytes: &[u8]) -> Result<String, AllocError> {
    let mut hasher = Md5::new();
    hasher.update(bytes);
    let digest = hasher.finalize();
    hex::encode(alloc, digest.as_slice())
}

fn is_edited(alloc: Global, text: &[u8]) -> Result<bool> {
    let delta = hex::decode(alloc, EDIT)?;
    let edited = decode(alloc, text, delta.as_slice(), LEN)?;
    Ok(md5_of(alloc, edited.as_slice())?.as_str() == EDITED_MD5)
}

fn is_encoded(alloc: Global, text: &[u8]) -> Result<bool> {
    let delta = encode(alloc, text)?;
    let again = decode(alloc, b"", delta.as_slice(), LEN)?;
    Ok(md5_of(alloc, delta.as_slice())?.as_str() == DELTA_MD5 && again.as_slice() == text)
}

/// Whether the text is Subversion's, its edit over three windows gives the edited text, and the whole text is written in the same three windows and read
/// again.
pub(crate) fn is_same(alloc: Global) -> Result<bool> {
    let text = text(alloc)?;
    let is_text = md5_of(alloc, text.as_slice())?.as_str() == TEXT_MD5;
    Ok(is_text && is_edited(alloc, text.as_slice())? && is_encoded(alloc, text.as_slice())?)
}
