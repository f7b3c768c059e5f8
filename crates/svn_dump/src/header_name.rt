//! The headers that are read; what others say is passed over.
ghost use Rattle.std.specs.Prelude.{◌≡◌, ◌<◌};
ghost use Rattle.svn_dump.specs.HeaderNames.{header_named, rarely_named, index_of};

/// How many headers are read.
pub(crate) const COUNT: usize = 18;

/// A header that is read, in the order in which `svnadmin` writes a node's, so that most are found early.
#[derive(Clone, Copy)]
pub(crate) enum HeaderName {
    NodePath,
    NodeKind,
    NodeAction,
    PropLength,
    TextLength,
    TextMd5,
    TextSha1,
    ContentLength,
    CopyRev,
    CopyPath,
    PropDelta,
    TextDelta,
    BaseMd5,
    BaseSha1,
    Revision,
    Checksum,
    Uuid,
    Format,
}

impl HeaderName {
    /// The header that is spelled so, if it is read.
    pub(crate) fn spelled(name: &[u8]) -> Option<HeaderName>
        ensures { result ≡ header_named name.now }
    {
        if name == b"Node-path".as_slice() {
            Some(HeaderName::NodePath)
        } else if name == b"Node-kind".as_slice() {
            Some(HeaderName::NodeKind)
        } else if name == b"Node-action".as_slice() {
            Some(HeaderName::NodeAction)
        } else if name == b"Prop-content-length".as_slice() {
            Some(HeaderName::PropLength)
        } else if name == b"Text-content-length".as_slice() {
            Some(HeaderName::TextLength)
        } else if name == b"Text-content-md5".as_slice() {
            Some(HeaderName::TextMd5)
        } else if name == b"Text-content-sha1".as_slice() {
            Some(HeaderName::TextSha1)
        } else if name == b"Content-length".as_slice() {
            Some(HeaderName::ContentLength)
        } else {
            HeaderName::spelled_rarely(name)
        }
    }

    // The same of those that few records have.
    fn spelled_rarely(name: &[u8]) -> Option<HeaderName>
        ensures { result ≡ rarely_named name.now }
    {
        if name == b"Node-copyfrom-rev".as_slice() {
            Some(HeaderName::CopyRev)
        } else if name == b"Node-copyfrom-path".as_slice() {
            Some(HeaderName::CopyPath)
        } else if name == b"Prop-delta".as_slice() {
            Some(HeaderName::PropDelta)
        } else if name == b"Text-delta".as_slice() {
            Some(HeaderName::TextDelta)
        } else if name == b"Text-delta-base-md5".as_slice() {
            Some(HeaderName::BaseMd5)
        } else if name == b"Text-delta-base-sha1".as_slice() {
            Some(HeaderName::BaseSha1)
        } else if name == b"Revision-number".as_slice() {
            Some(HeaderName::Revision)
        } else if name == b"Text-content-checksum".as_slice() {
            Some(HeaderName::Checksum)
        } else if name == b"UUID".as_slice() {
            Some(HeaderName::Uuid)
        } else if name == b"SVN-fs-dump-format-version".as_slice() {
            Some(HeaderName::Format)
        } else {
            None
        }
    }

    /// Its place among those that are read.
    pub(crate) fn index(self) -> usize
        ensures place { result ≡ index_of self }
        ensures within { result < 18 }
    {
        match self {
            HeaderName::NodePath => 0,
            HeaderName::NodeKind => 1,
            HeaderName::NodeAction => 2,
            HeaderName::PropLength => 3,
            HeaderName::TextLength => 4,
            HeaderName::TextMd5 => 5,
            HeaderName::TextSha1 => 6,
            HeaderName::ContentLength => 7,
            HeaderName::CopyRev => 8,
            HeaderName::CopyPath => 9,
            HeaderName::PropDelta => 10,
            HeaderName::TextDelta => 11,
            HeaderName::BaseMd5 => 12,
            HeaderName::BaseSha1 => 13,
            HeaderName::Revision => 14,
            HeaderName::Checksum => 15,
            HeaderName::Uuid => 16,
            HeaderName::Format => 17,
        }
    }
}
