// The superblock by value, its encoding, and its store.
ghost use Rattle.std.specs.Prelude.{◌≡◌, ◌≤◌, ◌<◌, length};
ghost use Rattle.memory.specs.Bytes.{zeros, overwrite};

use fnv::fnv1a64;
use words::{read_word, read_words, write_word, write_words};

// The zero runs are not among the fields: they stay in the bytes, or in a list of numbers.
#[derive(Clone, Copy, Debug, Default, PartialEq, Eq)]
pub struct Superblock {
    // "ICSQLITE", read as a little-endian number
    pub magic: u64,
    pub version: u32,
    pub sqlite_page_size: u32,
    pub db_size: u64,
    pub schema_version: u64,
    pub last_tx_id: u64,
    pub flags: u64,
    pub checksum: u64,
    pub import_expected_checksum: u64,
    pub import_written_until: u64,
    pub import_total_size: u64,
    pub import_base_offset: u64,
    pub checksum_refresh_offset: u64,
    pub checksum_refresh_hash: u64,
    pub checksum_refresh_tx_id: u64,
    pub db_base_offset: u64,
    pub page_table_offset: u64,
    pub page_count: u64,
    pub layout_version: u64,
    pub zero_extent_count: u64,
    pub meta_checksum: u64,
}

ghost use Rattle.meta.specs.Block.{fields_of, field_offset, block_bytes, encoded_len, sealed_by};
ghost use Rattle.meta.specs.Block.{decode as decoded};
ghost use Rattle.meta.specs.Block.{encode as encoded};
ghost use Rattle.meta.specs.Block.{seal as sealed};
ghost use Rattle.meta.specs.Block.{fresh as freshBlock};
ghost use Rattle.meta.specs.Block.{store_in};
ghost use Rattle.meta.specs.Block.{numbers_of, of_numbers, of_fields};
ghost use Rattle.meta.specs.Stored.{outcome};

// "with fresh and limits as items of `Superblock`"
impl Superblock {
    pub const MAGIC: u64 = 0x4554_494c_5153_4349;

    pub const VERSION: u32 = 8;

    pub const LAYOUT_VERSION: u64 = 8;

    pub const MAX_ZERO_EXTENTS: u64 = 1_024;

    // The 64-bit fields; the last is the block's own checksum.
    pub const FIELDS: usize = 18;

    pub const META_CHECKSUM: usize = 17;

    // With magic, version and page size.
    pub const NUMBERS: usize = 3 + Superblock::FIELDS;

    const FIELDS_OFFSET: usize = 16;

    // The runs follow the fields.
    pub const EXTENTS_OFFSET: usize = Superblock::FIELDS_OFFSET + 8 * Superblock::FIELDS;

    pub const ENCODED_LEN: usize = Superblock::EXTENTS_OFFSET
        + 16 * Superblock::MAX_ZERO_EXTENTS as usize;

    pub const FLAG_IMPORTING: u64 = 1;

    pub const FLAG_CHECKSUM_STALE: u64 = 2;

    pub const FLAG_CHECKSUM_REFRESHING: u64 = 4;

    // Where field `k` lies, in the order of `fields`.
    pub fn field_offset(k: usize) -> usize
        requires { k < 18 }
        ensures { result ≡ field_offset k }
    {
        Superblock::FIELDS_OFFSET + 8 * k
    }

    fn fields(self) -> [u64; Superblock::FIELDS]
        ensures { result ≡ fields_of self }
    {
        [
            self.db_size,
            self.schema_version,
            self.last_tx_id,
            self.flags,
            self.checksum,
            self.import_expected_checksum,
            self.import_written_until,
            self.import_total_size,
            self.import_base_offset,
            self.checksum_refresh_offset,
            self.checksum_refresh_hash,
            self.checksum_refresh_tx_id,
            self.db_base_offset,
            self.page_table_offset,
            self.page_count,
            self.layout_version,
            self.zero_extent_count,
            self.meta_checksum,
        ]
    }

    // The block of the fields in that order, and of what stands before them.
    // By places: a pattern of 18 names would say each field twice.
    fn of_fields(magic: u64, version: u32, sqlite_page_size: u32, fields: &[u64]) -> Superblock
        requires { 18 ≤ length fields.now }
        ensures { result ≡ of_fields magic version sqlite_page_size fields.now }
    {
        Superblock {
            magic,
            version,
            sqlite_page_size,
            db_size: fields[0],
            schema_version: fields[1],
            last_tx_id: fields[2],
            flags: fields[3],
            checksum: fields[4],
            import_expected_checksum: fields[5],
            import_written_until: fields[6],
            import_total_size: fields[7],
            import_base_offset: fields[8],
            checksum_refresh_offset: fields[9],
            checksum_refresh_hash: fields[10],
            checksum_refresh_tx_id: fields[11],
            db_base_offset: fields[12],
            page_table_offset: fields[13],
            page_count: fields[14],
            layout_version: fields[15],
            zero_extent_count: fields[16],
            meta_checksum: fields[Superblock::META_CHECKSUM],
        }
    }

    pub fn encoded_len(self) -> usize
        ensures { result ≡ encoded_len self }
    {
        let runs = self.zero_extent_count.min(Superblock::MAX_ZERO_EXTENTS);
        Superblock::EXTENTS_OFFSET + (runs as usize) * 16
    }

    // The block's bytes over those of an array.
    pub fn encode(self, runs: &[u64], out: &mut [u8])
        requires { length out.old ≡ 16544 }
        ensures { out.new ≡ overwrite 0 (block_bytes self runs.now) out.old }
    {
        // By a product, and by a quotient in `decode`, as the definition has it: a shift says no more.
        let sizes = u64::from(self.version) + u64::from(self.sqlite_page_size) * 0x1_0000_0000;
        write_word(out, 0, self.magic);
        write_word(out, 8, sizes);
        write_words(out, Superblock::FIELDS_OFFSET, &self.fields());
        let fit = runs.len().min(2 * Superblock::MAX_ZERO_EXTENTS as usize);
        write_words(out, Superblock::EXTENTS_OFFSET, &runs[..fit]);
    }

    // The block in the first bytes of a slice.
    pub fn decode(bytes: &[u8]) -> Superblock
        requires { 160 ≤ length bytes.now }
        ensures { result ≡ decoded bytes.now }
    {
        let sizes = read_word(bytes, 8);
        let fields: [u64; Superblock::FIELDS] = read_words(bytes, Superblock::FIELDS_OFFSET);
        Superblock::of_fields(
            read_word(bytes, 0),
            (sizes % 0x1_0000_0000) as u32,
            (sizes / 0x1_0000_0000) as u32,
            &fields,
        )
    }

    fn sealed_by(self, checksum: u64) -> Superblock
        ensures { result ≡ sealed_by checksum self }
    {
        Superblock {
            version: Superblock::VERSION,
            meta_checksum: checksum,
            ..self
        }
    }

    // The block with its checksum, in an array of zeros.
    fn seal(self, runs: &[u64], out: &mut [u8]) -> Superblock
        requires { out.old ≡ zeros 16544 }
        ensures { outcome result out.new ≡ outcome (sealed self runs.now) (encoded (sealed self runs.now) runs.now) }
    {
        let blank = self.sealed_by(0);
        blank.encode(runs, out);
        let n = blank.encoded_len();
        let checksum = fnv1a64(&out[..n]);
        let at = Superblock::field_offset(Superblock::META_CHECKSUM);
        write_word(out, at, checksum);
        self.sealed_by(checksum)
    }

    // The block of a new image.
    pub fn fresh() -> Superblock
        ensures { result ≡ freshBlock }
    {
        let mut bytes = [0u8; Superblock::ENCODED_LEN];
        let block = Superblock {
            magic: Superblock::MAGIC,
            version: Superblock::VERSION,
            sqlite_page_size: config::SQLITE_PAGE_SIZE as u32,
            db_base_offset: config::DB_REGION_OFFSET,
            layout_version: Superblock::LAYOUT_VERSION,
            ..Superblock::default()
        };
        block.seal(&[], &mut bytes)
    }

    // A block is built in a zeroed array of 16,544 bytes; as many of them as it has are stored, and hashed.
    pub fn store(self, runs: &[u64], mem: &mut [u8]) -> Superblock
        ensures { outcome result mem.new ≡ outcome (sealed self runs.now) (store_in self runs.now mem.old) }
    {
        let mut bytes = [0u8; Superblock::ENCODED_LEN];
        let block = self.seal(runs, &mut bytes);
        let n = block.encoded_len();
        memory::copy(mem, &bytes[..n]);
        block
    }

    // The block as a list of numbers: magic, version, page size, then the fields. By name, here and below: a `From` would not say which numbers.
    pub fn numbers(self) -> [u64; Superblock::NUMBERS]
        ensures { result ≡ numbers_of self }
    {
        let mut numbers = [0; Superblock::NUMBERS];
        numbers[0] = self.magic;
        numbers[1] = u64::from(self.version);
        numbers[2] = u64::from(self.sqlite_page_size);
        numbers[3..].copy_from_slice(&self.fields());
        numbers
    }

    // The block of such a list; of the version and the page size the low 32 bits count.
    pub fn of_numbers(n: &[u64]) -> Superblock
        requires { 21 ≤ length n.now }
        ensures { result ≡ of_numbers n.now }
    {
        Superblock::of_fields(
            n[0],
            (n[1] % 0x1_0000_0000) as u32,
            (n[2] % 0x1_0000_0000) as u32,
            &n[3..],
        )
    }
}
