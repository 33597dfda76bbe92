// The first commands, what they are given, and what the first publish leaves.
pub const FOO: &str = "30 10 3\n{\"id\":\"Foo\",\"version\":\"1.0.0\"}<package/>abc";

pub const BAR: &str = "30 10 3\n{\"id\":\"Bar\",\"version\":\"1.0.0\"}<package/>abc";

pub const USAGE: &str =
    "usage: feed <folder> init|publish|unlist|list|delete|job|cursor|get|verify|script|generate|serve\n";

pub const DONE: &str = "committed 1 2024-01-01T00:00:00.0000000Z\n";

pub const LEAF: &str =
    "{\"@id\":\"http://f.test/v3/catalog/data/1/0.json\",\"@type\":[\"PackageDetails\"],\"catalog:commitId\":\"00000000-0000-0000-0000-000000000001\",\"catalog:commitTimeStamp\":\"2024-01-01T00:00:00.0000000Z\",\"created\":\"2024-01-01T00:00:00.0000000Z\",\"id\":\"Foo\",\"isPrerelease\":false,\"listed\":true,\"origin\":\"1/0\",\"packageHash\":\"3a81oZNherrMQXNJriBBMRLm+k6JqX6iCp7u5ktV05ohkpkqJ0/BqDa6PCOj/uu9RU1EI2Q86A4qmslPpUyknw==\",\"packageHashAlgorithm\":\"SHA512\",\"packageSize\":3,\"published\":\"2024-01-01T00:00:00.0000000Z\",\"verbatimVersion\":\"1.0.0\",\"version\":\"1.0.0\"}";

pub const PAGE: &str =
    "{\"@id\":\"http://f.test/v3/catalog/page0.json\",\"commitId\":\"00000000-0000-0000-0000-000000000001\",\"commitTimeStamp\":\"2024-01-01T00:00:00.0000000Z\",\"count\":1,\"items\":[{\"@id\":\"http://f.test/v3/catalog/data/1/0.json\",\"@type\":\"nuget:PackageDetails\",\"commitId\":\"00000000-0000-0000-0000-000000000001\",\"commitTimeStamp\":\"2024-01-01T00:00:00.0000000Z\",\"nuget:id\":\"Foo\",\"nuget:version\":\"1.0.0\"}],\"parent\":\"http://f.test/v3/catalog/index.json\"}";

pub const INDEX: &str =
    "{\"@id\":\"http://f.test/v3/catalog/index.json\",\"commitId\":\"00000000-0000-0000-0000-000000000001\",\"commitTimeStamp\":\"2024-01-01T00:00:00.0000000Z\",\"count\":1,\"items\":[{\"@id\":\"http://f.test/v3/catalog/page0.json\",\"commitId\":\"00000000-0000-0000-0000-000000000001\",\"commitTimeStamp\":\"2024-01-01T00:00:00.0000000Z\",\"count\":1}]}";

/// What the first publish leaves, by name.
pub const FIRST: [(&str, &str); 5] = [
    ("staged/1/0.nupkg", "abc"),
    ("staged/1/0.nuspec", "<package/>"),
    ("data/1/0.json", LEAF),
    ("page0.json", PAGE),
    ("index.json", INDEX),
];

pub const MISSING: &str = "refused missing\n";

pub const VERSIONS: &str = "{\"versions\":[\"1.0.0\"]}";

/// The commands that lead to stores: the catalog is made, Foo published, the content hive built.
pub const FIRST_COMMANDS: [(&[&str], &str); 3] = [
    (&["init", "http://f.test/"], ""),
    (&["publish"], FOO),
    (&["job", "content"], ""),
];
