//! What the schema of a working copy's database says (`wc-metadata.sql`, format 31): tables, indexes, views and triggers, in the order of the clients'.

pub(crate) const REPOSITORY: &str =
    "CREATE TABLE REPOSITORY (id INTEGER PRIMARY KEY AUTOINCREMENT, root TEXT UNIQUE NOT NULL, uuid TEXT NOT NULL)";

pub(crate) const SEQUENCE: &str = "CREATE TABLE sqlite_sequence(name,seq)";

pub(crate) const UUID: &str = "CREATE INDEX I_UUID ON REPOSITORY (uuid)";

pub(crate) const ROOT: &str = "CREATE INDEX I_ROOT ON REPOSITORY (root)";

pub(crate) const WCROOT: &str =
    "CREATE TABLE WCROOT (id INTEGER PRIMARY KEY AUTOINCREMENT, local_abspath TEXT UNIQUE)";

pub(crate) const LOCAL_ABSPATH: &str =
    "CREATE UNIQUE INDEX I_LOCAL_ABSPATH ON WCROOT (local_abspath)";

pub(crate) const PRISTINE: &str =
    "CREATE TABLE PRISTINE (checksum TEXT NOT NULL PRIMARY KEY, compression INTEGER, size INTEGER NOT NULL, refcount INTEGER NOT NULL, md5_checksum TEXT NOT NULL)";

pub(crate) const PRISTINE_MD5: &str = "CREATE INDEX I_PRISTINE_MD5 ON PRISTINE (md5_checksum)";

pub(crate) const ACTUAL_NODE: &str =
    "CREATE TABLE ACTUAL_NODE (wc_id INTEGER NOT NULL REFERENCES WCROOT (id), local_relpath TEXT NOT NULL, parent_relpath TEXT, properties BLOB, conflict_old TEXT, conflict_new TEXT, conflict_working TEXT, prop_reject TEXT, changelist TEXT, text_mod TEXT, tree_conflict_data TEXT, conflict_data BLOB, older_checksum TEXT REFERENCES PRISTINE (checksum), left_checksum TEXT REFERENCES PRISTINE (checksum), right_checksum TEXT REFERENCES PRISTINE (checksum), PRIMARY KEY (wc_id, local_relpath))";

pub(crate) const ACTUAL_PARENT: &str =
    "CREATE UNIQUE INDEX I_ACTUAL_PARENT ON ACTUAL_NODE (wc_id, parent_relpath, local_relpath)";

pub(crate) const LOCK: &str =
    "CREATE TABLE LOCK (repos_id INTEGER NOT NULL REFERENCES REPOSITORY (id), repos_relpath TEXT NOT NULL, lock_token TEXT NOT NULL, lock_owner TEXT, lock_comment TEXT, lock_date INTEGER, PRIMARY KEY (repos_id, repos_relpath))";

pub(crate) const WORK_QUEUE: &str =
    "CREATE TABLE WORK_QUEUE (id INTEGER PRIMARY KEY AUTOINCREMENT, work BLOB NOT NULL)";

pub(crate) const WC_LOCK: &str =
    "CREATE TABLE WC_LOCK (wc_id INTEGER NOT NULL REFERENCES WCROOT (id), local_dir_relpath TEXT NOT NULL, locked_levels INTEGER NOT NULL DEFAULT -1, PRIMARY KEY (wc_id, local_dir_relpath))";

pub(crate) const NODES: &str =
    "CREATE TABLE NODES (wc_id INTEGER NOT NULL REFERENCES WCROOT (id), local_relpath TEXT NOT NULL, op_depth INTEGER NOT NULL, parent_relpath TEXT, repos_id INTEGER REFERENCES REPOSITORY (id), repos_path TEXT, revision INTEGER, presence TEXT NOT NULL, moved_here INTEGER, moved_to TEXT, kind TEXT NOT NULL, properties BLOB, depth TEXT, checksum TEXT REFERENCES PRISTINE (checksum), symlink_target TEXT, changed_revision INTEGER, changed_date INTEGER, changed_author TEXT, translated_size INTEGER, last_mod_time INTEGER, dav_cache BLOB, file_external INTEGER, inherited_props BLOB, PRIMARY KEY (wc_id, local_relpath, op_depth))";

pub(crate) const NODES_PARENT: &str =
    "CREATE UNIQUE INDEX I_NODES_PARENT ON NODES (wc_id, parent_relpath, local_relpath, op_depth)";

pub(crate) const NODES_MOVED: &str =
    "CREATE UNIQUE INDEX I_NODES_MOVED ON NODES (wc_id, moved_to, op_depth)";

pub(crate) const NODES_CURRENT: &str =
    "CREATE VIEW NODES_CURRENT AS SELECT * FROM nodes AS n WHERE op_depth = (SELECT MAX(op_depth) FROM nodes AS m WHERE m.wc_id = n.wc_id AND m.local_relpath = n.local_relpath)";

pub(crate) const NODES_BASE: &str =
    "CREATE VIEW NODES_BASE AS SELECT * FROM nodes WHERE op_depth = 0";

pub(crate) const INSERT_TRIGGER: &str =
    "CREATE TRIGGER nodes_insert_trigger AFTER INSERT ON nodes WHEN NEW.checksum IS NOT NULL BEGIN UPDATE pristine SET refcount = refcount + 1 WHERE checksum = NEW.checksum; END";

pub(crate) const DELETE_TRIGGER: &str =
    "CREATE TRIGGER nodes_delete_trigger AFTER DELETE ON nodes WHEN OLD.checksum IS NOT NULL BEGIN UPDATE pristine SET refcount = refcount - 1 WHERE checksum = OLD.checksum; END";

pub(crate) const CHECKSUM_TRIGGER: &str =
    "CREATE TRIGGER nodes_update_checksum_trigger AFTER UPDATE OF checksum ON nodes WHEN NEW.checksum IS NOT OLD.checksum BEGIN UPDATE pristine SET refcount = refcount + 1 WHERE checksum = NEW.checksum; UPDATE pristine SET refcount = refcount - 1 WHERE checksum = OLD.checksum; END";

pub(crate) const EXTERNALS: &str =
    "CREATE TABLE EXTERNALS (wc_id INTEGER NOT NULL REFERENCES WCROOT (id), local_relpath TEXT NOT NULL, parent_relpath TEXT NOT NULL, repos_id INTEGER NOT NULL REFERENCES REPOSITORY (id), presence TEXT NOT NULL, kind TEXT NOT NULL, def_local_relpath TEXT NOT NULL, def_repos_relpath TEXT NOT NULL, def_operational_revision TEXT, def_revision TEXT, PRIMARY KEY (wc_id, local_relpath))";

pub(crate) const EXTERNALS_DEFINED: &str =
    "CREATE UNIQUE INDEX I_EXTERNALS_DEFINED ON EXTERNALS (wc_id, def_local_relpath, local_relpath)";

pub(crate) const STATISTICS: &str = "CREATE TABLE sqlite_stat1(tbl,idx,stat)";
